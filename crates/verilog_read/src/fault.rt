ghost use Rattle.std.specs.Prelude.{◌≡◌, [], None};
ghost use Rattle.verilog_read.specs.Faults.{unless};
ghost use Rattle.verilog_read.specs.Earliest.{is_before, earlier, noted};

use hls_base::place::Place;
use hls_base::refusal::Refusal;

/// The first of the faults that were noted: the one at the earliest place, and at one place that of the smallest rule.
#[derive(Drop)]
pub struct FirstFault {
    pub found: Option<Refusal>,
}

fn is_before(left: Refusal, right: Refusal) -> bool
    ensures { result ≡ is_before left right }
{
    if left.place.line != right.place.line {
        return left.place.line < right.place.line;
    }
    if left.place.column != right.place.column {
        return left.place.column < right.place.column;
    }
    left.rule < right.rule
}

fn earlier(found: Option<Refusal>, fault: Refusal) -> Refusal
    ensures { result ≡ earlier found fault }
{
    match found {
        Some(first) if !is_before(fault, first) => first,
        _ => fault,
    }
}

impl FirstFault {
    pub fn new() -> FirstFault
        ensures { result.found ≡ noted None [] }
    {
        FirstFault { found: None }
    }

    /// Notes a fault where the condition is not met.
    pub fn require(&mut self, is_met: bool, rule: u8, place: Place)
        ensures { self.new.found ≡ noted self.old.found (unless is_met rule place) }
    {
        if !is_met {
            self.found = Some(earlier(self.found, Refusal { rule, place }));
        }
    }
}
