// The printout of document 01, which is one definition of the input's bytes, `printout` of `printed`, put into lent bytes by `print`.
#![tactic(auto)]

ghost use Rattle.std.specs.Prelude.{◌≡◌, suc, ◌+◌, ◌≤◌, length};
ghost use Rattle.request.specs.Operations.{last_register};
ghost use Rattle.report.specs.Sizes.{most_totals_bytes, most_registers_bytes};
ghost use Rattle.replica.specs.Memory.{memory, SameSpare};
ghost use Rattle.replica.specs.internal.Model.{Inv};
ghost use Rattle.printed.specs.Printout.{shop_bytes, most_input, most_printed, Printed};
ghost use Rattle.sheet.specs.Putting.{ClosingPut, RegistersPut, most_shift_bytes, ShiftPut, PrintoutPut};

use message_lines::SHOP_BYTES;
use numbers::PanelNo;
use replica::Panel;
use report::sizes::{
    MOST_BOARD_BYTES, MOST_MESSAGE_BYTES, MOST_REGISTERS_BYTES, MOST_TOTALS_BYTES,
};
use request::refusal::Refusal;
use wire::layout::LEAST_MESSAGE;

// At most so many bytes of the input are read.
pub const MOST_INPUT: usize = 65536;

// At most so many messages are found in them, the last of which may be cut short.
const MOST_MESSAGES: usize = MOST_INPUT / LEAST_MESSAGE + 1;

// The most bytes of a printout.
pub const MOST_PRINTED: usize = MOST_BOARD_BYTES
    + MOST_MESSAGES * MOST_MESSAGE_BYTES
    + MOST_TOTALS_BYTES
    + MOST_REGISTERS_BYTES;

// Puts the list lengths, the step totals and the registers of a panel.
fn put_closing(out: &mut [u8], p: &Panel) -> usize
    requires inv { Inv (memory p.now) }
    requires most_registers_bytes_in_bounds { most_totals_bytes + most_registers_bytes ≤ length out.old }
    ensures { ClosingPut (memory p.now) out.old out.new result }
{
    let at = report::put_totals(
        out,
        p.committed as u64,
        (p.ordered - p.committed) as u64,
        p.counters.undos as u64,
        p.counters.executions as u64,
    );
    at + put_registers(&mut out[at..], &p.registers)
}

// Puts a line for each register that is not 0; a slice's type says how great its numbers are at most, and so how long the lines.
fn put_registers(out: &mut [u8], registers: &[u32]) -> usize
    requires all { length registers.now ≡ suc last_register }
    requires most_registers_bytes_in_bounds { most_registers_bytes ≤ length out.old }
    ensures { RegistersPut registers.now out.old out.new result }
{
    report::put_registers(out, registers)
}

// Puts the lines of a shift that begins with that panel: those of the messages found behind the shop's bytes, and the closing lines.
fn put_shift(out: &mut [u8], input: &[u8], p: &mut Panel) -> usize
    requires inv { Inv (memory p.old) }
    requires shop_bytes_in_bounds { shop_bytes ≤ length input.now }
    requires input_len_bound { length input.now ≤ most_input }
    requires most_shift_bytes_in_bounds { most_shift_bytes ≤ length out.old }
    ensures { ShiftPut (memory p.old) input.now out.old out.new result × SameSpare p.old p.new }
{
    let at = message_lines::put_messages(out, input, p);
    at + put_closing(&mut out[at..], p)
}

// Puts the printout of at most MOST_INPUT bytes.
fn put_printout(out: &mut [u8], input: &[u8]) -> usize
    requires input_len_bound { length input.now ≤ most_input }
    requires most_printed_in_bounds { most_printed ≤ length out.old }
    ensures { PrintoutPut input.now out.old out.new result }
{
    if input.len() < SHOP_BYTES {
        return report::put_refused(out, u8::from(Refusal::CutShort) as u64);
    }
    let panels = input[0];
    let own = PanelNo(input[1]);
    // Before there is a panel, whose memory a bad shop would clear for nothing.
    if replica::bad_shop(panels, own) {
        return report::put_refused(out, u8::from(Refusal::BadShop) as u64);
    }
    let mut panel = Panel::zeros();
    let _opened = panel.fresh(panels, own);
    let at = report::put_board(out, panels as u64, own.0 as u64);
    at + put_shift(&mut out[at..], input, &mut panel)
}

// Puts the printout of the input, of which at most MOST_INPUT bytes are read, at the front of `out` and returns how many bytes it has. An
// `out` of under MOST_PRINTED bytes is left alone, and 0 is returned.
pub fn print(out: &mut [u8], input: &[u8]) -> usize
    ensures { Printed input.now out.old out.new result }
{
    if out.len() < MOST_PRINTED {
        return 0;
    }
    if input.len() <= MOST_INPUT {
        return put_printout(out, input);
    }
    put_printout(out, &input[..MOST_INPUT])
}
