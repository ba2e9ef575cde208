// The lines of the printout, each put at the front of lent bytes.
//
// Every function puts one line of `specs/Lines`, or the registers' lines, at the front of `out`, leaves every byte behind it alone and
// returns how many bytes it has. `out` must have room for the line: whoever lends the bytes for a whole printout tests their length,
// and `proofs/SizeLaws` says how long each line is at most, as `sizes` has it.
#![tactic(auto, unfolding(crate::specs::Lines::board_line, crate::specs::Lines::refused_line, crate::specs::Lines::message_line, crate::specs::Lines::unread_line, crate::specs::Lines::totals_line, text::specs::Text::line, text::specs::Text::rest_of_line, text::specs::Text::ascii))]

pub mod sizes;

ghost use Rattle.text.specs.Written.{Room, Written};
ghost use Rattle.report.specs.Lines.{board_line, refused_line, message_line, unread_line, totals_line, line_unless_zero, register_lines};

// Puts the line of a good shop.
pub fn put_board(out: &mut [u8], panels: u64, own: u64) -> usize
    requires { Room out.old (board_line panels own) }
    ensures { Written out.old (board_line panels own) out.new result }
{
    text::put_line(out, b"board", &[panels, own])
}

// Puts the line of a refused shop.
pub fn put_refused(out: &mut [u8], refusal: u64) -> usize
    requires { Room out.old (refused_line refusal) }
    ensures { Written out.old (refused_line refusal) out.new result }
{
    text::put_line(out, b"board refused", &[refusal])
}

// Puts a message's line; its numbers come from here and there, so that a struct of them would only name each once more.
pub fn put_message(
    out: &mut [u8],
    place: u64,
    kind: u64,
    panel: u64,
    event: u64,
    refusal: u64,
    undone: u64,
) -> usize
    requires { Room out.old (message_line place kind panel event refusal undone) }
    ensures { Written out.old (message_line place kind panel event refusal undone) out.new result }
{
    let at = text::put_number(out, place);
    at + text::end_line(&mut out[at..], &[kind, panel, event, refusal, undone])
}

// Puts the line of a message that cannot be read.
pub fn put_unread(out: &mut [u8], place: u64, refusal: u64) -> usize
    requires { Room out.old (unread_line place refusal) }
    ensures { Written out.old (unread_line place refusal) out.new result }
{
    let at = text::put_number(out, place);
    at + text::put_line(&mut out[at..], b" - - -", &[refusal, 0])
}

// Puts the line of the list lengths and the step totals, which have no struct either.
pub fn put_totals(out: &mut [u8], settled: u64, unsettled: u64, undone: u64, carried: u64) -> usize
    requires { Room out.old (totals_line settled unsettled undone carried) }
    ensures { Written out.old (totals_line settled unsettled undone carried) out.new result }
{
    let mut at = text::put_labelled(out, b"settled ", settled);
    at += text::put_labelled(&mut out[at..], b" unsettled ", unsettled);
    at += text::put_labelled(&mut out[at..], b" undone ", undone);
    at + text::put_line(&mut out[at..], b" carried", &[carried])
}

// Puts a register's line, or nothing if it is 0.
fn put_register(out: &mut [u8], register: u64, value: u64) -> usize
    requires { Room out.old (line_unless_zero register value) }
    ensures { Written out.old (line_unless_zero register value) out.new result }
{
    if value == 0 {
        return 0;
    }
    text::put_line(out, b"register", &[register, value])
}

// Puts a line for each register that is not 0, rising.
pub fn put_registers(out: &mut [u8], registers: &[u32]) -> usize
    requires { Room out.old (register_lines registers.now) }
    ensures { Written out.old (register_lines registers.now) out.new result }
{
    let mut at = 0;
    for (i, register) in registers.iter().enumerate() {
        at += put_register(&mut out[at..], i as u64, *register as u64);
    }
    at
}
