// The messages of the printout: each that is found in the input is received by the panel, and its line is put at the front of lent bytes.
#![tactic(auto)]

ghost use Rattle.std.specs.Prelude.{◌+◌, ◌*◌, ◌≤◌, length};
ghost use Rattle.report.specs.Sizes.{most_message_bytes};
ghost use Rattle.replica.specs.Memory.{memory, SameSpare};
ghost use Rattle.replica.specs.internal.Model.{Inv};
ghost use Rattle.printed.specs.Printout.{shop_bytes, most_messages, most_input};
ghost use Rattle.message_lines.specs.LinesPut.{LinePut, Idle, AllPut};

use intake::Receipt;
use replica::Panel;

// P and the own panel, one byte each, in front of the messages.
pub const SHOP_BYTES: usize = 2;

// Puts the line of the message that a receipt tells of, after which so many steps were undone.
fn put_line(out: &mut [u8], place: u64, receipt: Receipt, undone: u32) -> usize
    requires most_message_bytes_in_bounds { most_message_bytes ≤ length out.old }
    requires place_le_most_input { place ≤ most_input }
    ensures { LinePut place receipt.kind receipt.number receipt.reply.refusal undone out.old out.new result }
{
    let number = receipt.number;
    report::put_message(
        out,
        place,
        receipt.kind as u64,
        number.panel.0 as u64,
        number.event.0 as u64,
        receipt.reply.refusal as u64,
        undone as u64,
    )
}

// Every due step until the panel is idle; returns how many undos they were.
fn idle(p: &mut Panel) -> u32
    requires { Inv (memory p.old) }
    ensures { Idle (memory p.old) (memory p.new) result × SameSpare p.old p.new }
{
    let steps = due::run_due(p);
    steps.undos
}

// Receives what is found behind the shop's bytes, message by message, calls due steps until the panel is idle, and puts each line; what
// cannot be read is the last. Returns how many bytes the lines have.
pub fn put_messages(out: &mut [u8], input: &[u8], p: &mut Panel) -> usize
    requires inv { Inv (memory p.old) }
    requires shop_bytes_in_bounds { shop_bytes ≤ length input.now }
    requires input_len_bound { length input.now ≤ most_input }
    requires most_message_bytes_in_bounds { most_messages * most_message_bytes ≤ length out.old }
    ensures { AllPut (memory p.old) input.now out.old (memory p.new) out.new result × SameSpare p.old p.new }
{
    let mut at = SHOP_BYTES;
    let mut behind = 0;
    let mut place: u64 = 1;
    // A while, since each message says where the next one stands.
    while at < input.len() {
        let receipt = intake::receive(p, input, at);
        let taken = receipt.taken as usize;
        if taken == 0 {
            let refusal = receipt.reply.refusal as u64;
            return behind + report::put_unread(&mut out[behind..], place, refusal);
        }
        let undone = idle(p);
        behind += put_line(&mut out[behind..], place, receipt, undone);
        at += taken;
        place += 1;
    }
    behind
}
