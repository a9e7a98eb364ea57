ghost use Rattle.std.specs.Prelude.{◌≡◌, ◌%◌, ◌==◌, ◌≤◌, ◌++◌, ◌∷◌, [], IfOk, OnOk, if◌then◌else◌};
ghost use Rattle.std.specs.String.{string_bytes};
ghost use Rattle.cosim_levels.specs.SoakProgram as soak;

use crate::draws::{Draws, draw_below};
use hls_base::inputs::Inputs;
use hls_base::text::Text;
use hls_base::words::{Arrays, Words};
use std::alloc::{AllocError, Global};

/// A program by its text, how many of its lines multiply, and what its top function `f` is given.
#[derive(Drop)]
pub struct SoakProgram {
    pub text: Text,
    pub muls: u32,
    pub inputs: Inputs,
}

/// How many loops change the elements.
const LOOPS: u32 = 40;

/// How many elements the array has.
const ELEMENTS: usize = 64;

/// The number of `*` among the operators.
const TIMES: u64 = 2;

/// The operator of this number.
fn sign(operator: u64) -> &'static str
    ensures { result.now ≡ soak.sign operator }
{
    match operator {
        0 => "+",
        1 => "-",
        2 => "*",
        3 => "^",
        4 => "|",
        _ => "&",
    }
}

#[tactic(auto, unfolding(crate::specs::SoakProgram::loop_line))]
fn loop_line(alloc: Global, operator: u64, constant: u64) -> Result<String, AllocError>
    ensures { IfOk result (λ s. string_bytes s ≡ soak.loop_line operator constant) }
{
    let sign = sign(operator);
    format!(in alloc; "for (int i = 0; i < 64; i++) a[i] = (a[i] {sign} k) + {constant}u;\n")
}

/// Adds a loop to the text, and answers whether it multiplies.
fn push_loop(alloc: Global, draws: &mut Draws, text: &mut String) -> Result<bool, AllocError>
    ensures text { OnOk result (string_bytes text.new ≡ string_bytes text.old ++ soak.loop_line (soak.draw draws.old.x % 6) (soak.draw (soak.next draws.old.x) % 1000)) }
    ensures after { OnOk result (draws.new.x ≡ soak.next (soak.next draws.old.x)) }
    ensures product { IfOk result (λ is. is ≡ (soak.draw draws.old.x % 6 == 2)) }
{
    let operator = draw_below(draws, 6);
    let constant = draw_below(draws, 1000);
    let line = loop_line(alloc, operator, constant)?;
    text.push_str(line.as_str())?;
    Ok(operator == TIMES)
}

fn one_if(product: bool) -> u32
    ensures value { result ≡ (if product then 1 else 0) }
    ensures bound { result ≤ 1 }
{
    u32::from(product)
}

/// Adds the loops to the text, and answers how many multiply.
fn push_loops(alloc: Global, draws: &mut Draws, text: &mut String) -> Result<u32, AllocError>
    ensures text { OnOk result (string_bytes text.new ≡ string_bytes text.old ++ soak.loop_lines draws.old.x 40) }
    ensures after { OnOk result (draws.new.x ≡ soak.behind draws.old.x 80) }
    ensures products { IfOk result (λ n. n ≡ soak.count_products draws.old.x 40) }
{
    let mut muls: u32 = 0;
    for _ in 0..LOOPS {
        let product = push_loop(alloc, draws, text)?;
        muls += one_if(product);
    }
    Ok(muls)
}

/// So many draws, each below 65,536.
fn drawn(alloc: Global, draws: &mut Draws, count: usize) -> Result<Vec<u64>, AllocError>
    ensures drawn { IfOk result (λ v. v.items ≡ soak.drawn draws.old.x count) }
    ensures after { OnOk result (draws.new.x ≡ soak.behind draws.old.x count) }
{
    let mut words = Vec::with_capacity(alloc, count)?;
    for _ in 0..count {
        words.push(draw_below(draws, 65_536))?;
    }
    Ok(words)
}

/// The elements and the argument of a run.
fn drawn_inputs(alloc: Global, draws: &mut Draws) -> Result<Inputs, AllocError>
    ensures scalars { IfOk result (λ i. i.scalars ≡ soak.draw (soak.behind draws.old.x 64) % 65536 ∷ []) }
    ensures arrays { IfOk result (λ i. i.arrays ≡ soak.drawn draws.old.x 64 ∷ []) }
{
    let elements = drawn(alloc, draws, ELEMENTS)?;
    let argument = draw_below(draws, 65_536);
    Ok(Inputs {
        scalars: Words::new(vec![in alloc; argument; 1]?),
        arrays: Arrays::new(vec![in alloc; Words::new(elements)]?),
    })
}

/// The program of a number: forty loops over an array, each with a drawn operator and constant, and the sum of its elements.
pub fn soak_program(alloc: Global, number: u64) -> Result<SoakProgram, AllocError>
    ensures text { IfOk result (λ p. p.text ≡ soak.program_text number) }
    ensures products { IfOk result (λ p. p.muls ≡ soak.count_products number 40) }
    ensures scalars { IfOk result (λ p. p.inputs.scalars ≡ soak.argument number ∷ []) }
    ensures arrays { IfOk result (λ p. p.inputs.arrays ≡ soak.elements number ∷ []) }
{
    let mut draws = Draws { x: number };
    let mut text = String::from_str(
        alloc,
        "unsigned f(unsigned a[64], unsigned k) {\nunsigned s = 0;\n",
    )?;
    let muls = push_loops(alloc, &mut draws, &mut text)?;
    text.push_str("for (int i = 0; i < 64; i++) s = s + a[i];\nreturn s;\n}\n")?;
    Ok(SoakProgram {
        text: Text::from_slice(alloc, text.as_bytes())?,
        muls,
        inputs: drawn_inputs(alloc, &mut draws)?,
    })
}
