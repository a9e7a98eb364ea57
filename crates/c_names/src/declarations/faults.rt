//! The least of some faults.
ghost use Rattle.std.specs.Prelude.{◌≡◌, [], ◌∷◌};
ghost use Rattle.c_meaning.specs.Checks.Faults.{is_lesser, least};
ghost use Rattle.c_meaning.specs.Checks.Faults as spec;

use hls_base::place::Place;
use hls_base::refusal::Refusal;

fn is_less(r: Refusal, s: Refusal) -> bool
    ensures { result ≡ is_lesser r s }
{
    let p = r.place;
    let q = s.place;
    p.line < q.line
        || (p.line == q.line
            && (p.column < q.column
                || (p.column == q.column
                    && (p.part < q.part || (p.part == q.part && r.rule < s.rule)))))
}

/// The lesser of two faults that may be there.
pub fn lesser(r: Option<Refusal>, s: Option<Refusal>) -> Option<Refusal>
    ensures { result ≡ spec.lesser r s }
{
    match (r, s) {
        (None, s) => s,
        (Some(r), None) => Some(r),
        (Some(r), Some(s)) => { if is_less(s, r) { Some(s) } else { Some(r) } }
    }
}

/// The fault of a rule at a place.
pub fn fault(rule: u8, place: Place) -> Option<Refusal>
    ensures { result ≡ least (spec.fault rule place ∷ []) }
{
    Some(Refusal { rule, place })
}

/// The fault of a rule at a place, where it is broken.
pub fn fault_if(broken: bool, rule: u8, place: Place) -> Option<Refusal>
    ensures { result ≡ least (spec.fault_if broken rule place) }
{
    if broken {
        Some(Refusal { rule, place })
    } else {
        None
    }
}
