// The calls that show a panel and change nothing.
//
// Each is the method of the replica's panel of the same name or, for the status of a request, the function of `status`.
ghost use Rattle.std.specs.Prelude.{◌≡◌};
ghost use Rattle.creek.specs.Showing.{requests_shown, commits_shown, undos_shown, executions_shown, owed_shown};
ghost use Rattle.creek.specs.Showing.{panels_shown, own_shown, made_shown};
ghost use Rattle.replica.specs.internal.Model.{model, Inv};
ghost use Rattle.replica.specs.Shown.{committed_shown, RegisterShown, PlaceShown};
ghost use Rattle.status.specs.Status.{StatusShown};
ghost use Rattle.mizzencord.specs.Memory.{memory};

use super::Panel;
use numbers::Number;
use replica::{PlacedRequest, RegisterValue};
use status::RequestStatus;

// The value of register k, or refusal 3 with 0.
#[unsafe(no_mangle)]
pub extern "C" fn mizzencord_register(p: &Panel, k: u8) -> RegisterValue
    requires { Inv (memory p.now) }
    ensures { RegisterShown (memory p.now) k result }
{
    p.replica.register(k)
}

// The count of accepted requests.
#[unsafe(no_mangle)]
pub extern "C" fn mizzencord_requests(p: &Panel) -> usize
    requires { Inv (memory p.now) }
    ensures { result ≡ requests_shown (model (memory p.now)) }
{
    p.replica.requests()
}

// The length of the settled list.
#[unsafe(no_mangle)]
pub extern "C" fn mizzencord_committed(p: &Panel) -> usize
    requires { Inv (memory p.now) }
    ensures { result ≡ committed_shown (model (memory p.now)) }
{
    p.replica.committed()
}

// The count of accepted settlements.
#[unsafe(no_mangle)]
pub extern "C" fn mizzencord_commits(p: &Panel) -> u32
    requires { Inv (memory p.now) }
    ensures { result ≡ commits_shown (model (memory p.now)) }
{
    p.replica.commits()
}

// The steps owed.
#[unsafe(no_mangle)]
pub extern "C" fn mizzencord_owed(p: &Panel) -> usize
    requires { Inv (memory p.now) }
    ensures { result ≡ owed_shown (model (memory p.now)) }
{
    p.replica.owed()
}

// The undos done.
#[unsafe(no_mangle)]
pub extern "C" fn mizzencord_undos(p: &Panel) -> u32
    requires { Inv (memory p.now) }
    ensures { result ≡ undos_shown (model (memory p.now)) }
{
    p.replica.undos()
}

// The executions done.
#[unsafe(no_mangle)]
pub extern "C" fn mizzencord_executions(p: &Panel) -> u32
    requires { Inv (memory p.now) }
    ensures { result ≡ executions_shown (model (memory p.now)) }
{
    p.replica.executions()
}

// The number of panels of the shop.
#[unsafe(no_mangle)]
pub extern "C" fn mizzencord_panels(p: &Panel) -> u8
    requires { Inv (memory p.now) }
    ensures { result ≡ panels_shown (model (memory p.now)) }
{
    p.replica.panels()
}

// The own panel.
#[unsafe(no_mangle)]
pub extern "C" fn mizzencord_own(p: &Panel) -> u8
    requires { Inv (memory p.now) }
    ensures { result ≡ own_shown (model (memory p.now)) }
{
    p.replica.own()
}

// The own requests made.
#[unsafe(no_mangle)]
pub extern "C" fn mizzencord_made(p: &Panel) -> u8
    requires { Inv (memory p.now) }
    ensures { result ≡ made_shown (model (memory p.now)) }
{
    p.replica.made()
}

// The request at a place of the standing order, places counted from 1, or refusal 9 with a request of zeros.
#[unsafe(no_mangle)]
pub extern "C" fn mizzencord_at_place(p: &Panel, place: usize) -> PlacedRequest
    requires { Inv (memory p.now) }
    ensures { PlaceShown (memory p.now) place result }
{
    p.replica.at_place(place)
}

// What the panel has of the request of number n, or refusal 2 or 9 with zeros.
#[unsafe(no_mangle)]
pub extern "C" fn mizzencord_request_status(p: &Panel, n: Number) -> RequestStatus
    requires { Inv (memory p.now) }
    ensures { StatusShown (memory p.now) n result }
{
    status::request_status(&p.replica, n)
}
