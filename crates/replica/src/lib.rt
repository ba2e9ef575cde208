// A panel's memory as one struct, the calls that make and show it, and what a call answers where it has no request to say.
//
// A request is kept at its number's slot in `clocks`, `askings` and `contexts`. The standing order is the first `ordered` of `order`, of
// which the first `committed` are committed; `held` has the numbers of the order, `settled` those of the committed ones. The requests on
// the board are the first `stacked` of `stack`: the first `executed` of them are the executed list, the rest, last first, the rollback
// list. By place on the board `saved` has what to roll back from and `responses` the response. So adjusting only lowers `executed`, an undo
// takes the last off the stack, and an execution puts one on.
//
// A call is lent the panel and changes it in place. It asks for what it uses of a panel that came from fresh and the calls, and its contract
// holds of every such panel that has this (`Uses` of `specs/`); the other fields may hold anything, and stay as they are. The loops, which
// are in the crates below, are lent the fields that they use, no others.
//
// Fresh is here, the showing calls in `showing`; invoke is the crate `invoking`, deliver `delivering`, commit `committing`, undo and
// execute are `steps`, all due steps at once are `due`. `State` of `specs/` is the memory as one record, `Model` maps it to a replica of `creek`.
#![tactic(auto)]

pub mod replies;
pub mod showing;

ghost use Rattle.std.specs.Prelude.{◌≡◌};
ghost use Rattle.numbers.specs.Numbers.{panel_no};
ghost use Rattle.creek.specs.Calls.{bad_shop};
ghost use Rattle.replica.specs.State.{first_memory};
ghost use Rattle.replica.specs.Promises.{Fresh};
ghost use Rattle.replica.specs.Memory.{memory, no_spare, opened_by, shop_opened};
ghost use Rattle.request.specs.Refusal.{outcome_number};

use counters::Counters;
use numbers::PanelNo;
pub use replies::{end_waiting, told};
use request::Request;
use request::refusal::Refusal;

// A panel's memory, with its counts beside the arrays and one array for each thing that is kept by slot: no heap, and a search that reads
// the clocks reads nothing else. The type has no invariant, since C lends memory that holds anything to fresh. The spare bytes stand where
// the arrays would leave a gap: fresh clears them and no call changes them, so that equal memories have equal bytes.
#[repr(C)]
#[derive(Drop)]
pub struct Panel {
    pub committed: usize,
    pub ordered: usize,
    pub executed: usize,
    pub stacked: usize,
    pub commits: u32,
    pub clock: u32,
    pub counters: Counters,
    pub panels: u8,
    pub own: PanelNo,
    pub events: u8,
    pub spare: [u8; 5],
    pub held: [u64; 8],
    pub known: [u64; 8],
    pub awaiting: [u64; 8],
    pub clocks: [u32; 512],
    pub askings: [u64; 512],
    pub contexts: [u64; 4096],
    pub order: [u16; 512],
    pub stack: [u16; 512],
    pub registers: [u32; 64],
    pub saved: [u64; 512],
    pub responses: [u32; 512],
    pub settled: [u64; 8],
}

// A register's value, or refusal 3: a struct, since a Result does not cross to C.
#[repr(C)]
#[derive(Clone, Copy)]
pub struct RegisterValue {
    pub value: u32,
    pub refusal: u8,
}

// The request at a place of the standing order, or refusal 9: a struct, since a Result does not cross to C.
#[repr(C)]
#[derive(Clone, Copy)]
pub struct PlacedRequest {
    pub request: Request,
    pub refusal: u8,
}

// A shop: its number of panels and the own one.
#[derive(Clone, Copy)]
struct Shop {
    panels: u8,
    own: PanelNo,
}

// The panel of a one-panel shop.
const FIRST_PANEL: PanelNo = PanelNo(0);

impl Panel {
    // Memory for a panel, all zeros, which is to be made one by fresh. Fresh lists the fields once more, since a whole panel that is assigned
    // stands on the stack before.
    pub fn zeros() -> Panel
        ensures { (memory result ≡ first_memory 0 (panel_no 0)) × (result.spare ≡ no_spare) }
    {
        Panel {
            committed: 0,
            ordered: 0,
            executed: 0,
            stacked: 0,
            commits: 0,
            clock: 0,
            counters: Counters {
                undos: 0,
                executions: 0,
            },
            panels: 0,
            own: PanelNo(0),
            events: 0,
            spare: [0; 5],
            held: [0; 8],
            known: [0; 8],
            awaiting: [0; 8],
            clocks: [0; 512],
            askings: [0; 512],
            contexts: [0; 4096],
            order: [0; 512],
            stack: [0; 512],
            registers: [0; 64],
            saved: [0; 512],
            responses: [0; 512],
            settled: [0; 8],
        }
    }

    // Makes this a panel of a shift's first moment, field by field in place, whatever it was; a refused one is a one-panel shop, panel 0.
    pub fn fresh(&mut self, panels: u8, own: PanelNo) -> Result<(), Refusal>
        ensures { Fresh panels own.0 (opened_by result self.new) × (self.new.spare ≡ no_spare) }
    {
        let bad = bad_shop(panels, own);
        let opened = shop_of(bad, panels, own);
        self.committed = 0;
        self.ordered = 0;
        self.executed = 0;
        self.stacked = 0;
        self.commits = 0;
        self.clock = 0;
        self.counters = Counters {
            undos: 0,
            executions: 0,
        };
        self.panels = opened.panels;
        self.own = opened.own;
        self.events = 0;
        self.spare = [0; 5];
        self.held = [0; 8];
        self.known = [0; 8];
        self.awaiting = [0; 8];
        self.clocks = [0; 512];
        self.askings = [0; 512];
        self.contexts = [0; 4096];
        self.order = [0; 512];
        self.stack = [0; 512];
        self.registers = [0; 64];
        self.saved = [0; 512];
        self.responses = [0; 512];
        self.settled = [0; 8];
        if bad {
            return Err(Refusal::BadShop);
        }
        Ok(())
    }
}

// The shop that is opened where that one is asked for: a bad one is a one-panel shop, panel 0.
fn shop_of(bad: bool, panels: u8, own: PanelNo) -> Shop
    ensures { result ≡ shop_opened bad panels own }
{
    if bad {
        return Shop {
            panels: 1,
            own: FIRST_PANEL,
        };
    }
    Shop { panels, own }
}

// The test behind refusal 1, which a caller asks where it wants no panel for a bad shop.
pub fn bad_shop(panels: u8, own: PanelNo) -> bool
    ensures { result ≡ bad_shop panels own.0 }
{
    !((1 <= panels) & (panels <= numbers::MOST_PANELS)) | !(own.0 < panels)
}
