// The call by which a held strong request is settled, commit: it is refused where that needs no context, else settled.
#![tactic(auto)]

ghost use Rattle.std.specs.Prelude.{◌≡◌, ◌≤◌};
ghost use Rattle.numbers.specs.Numbers.{most_panels};
ghost use Rattle.sets.specs.Sets.{set_of};
ghost use Rattle.request.specs.Refusal.{outcome_number};
ghost use Rattle.creek.specs.Book.{commit as commit_call};
ghost use Rattle.creek.specs.Replies.{reply_answer};
ghost use Rattle.replica.specs.Uses.{settling_uses};
ghost use Rattle.replica.specs.Memory.{Asks, Done};
ghost use Rattle.settling.specs.Settling.{early_refusal};

use creek::Reply;
use numbers::Number;
use replica::Panel;
use request::refusal::Refusal;

// Settle the request of number n; what is refused without its context costs no call of `settling::settle`.
pub fn commit(p: &mut Panel, n: Number) -> Reply
    requires { Asks (settling_uses p.old) }
    ensures { Done p.old (commit_call n) (reply_answer result) p.new }
{
    if let Err(refusal) = early_refusal(p, n) {
        return replica::told(Err(refusal));
    }
    settling::settle(p, n)
}

// The refusal of a settlement that needs no context, if there is one: bad number, not here, weak, settled already.
fn early_refusal(p: &Panel, n: Number) -> Result<(), Refusal>
    requires { p.now.panels ≤ most_panels }
    ensures { outcome_number result ≡ early_refusal p.now.panels (set_of p.now.held) (set_of p.now.known) p.now.askings n }
{
    if numbers::bad(p.panels, n) {
        return Err(Refusal::BadNumber);
    }
    if !members::member(&p.held, n) {
        return Err(Refusal::NotHere);
    }
    let slot = numbers::slot_of(n);
    let asked = store::asked_at(&p.askings, slot as usize);
    if !asked.strong {
        return Err(Refusal::Weak);
    }
    // A held strong request is known exactly where it is committed.
    if members::member(&p.known, n) {
        return Err(Refusal::SettledAlready);
    }
    Ok(())
}
