// The text of a script.

ghost use Rattle.std.specs.Prelude.{◌≡◌, ◌++◌, OnOk, IfOk, codes, decimal};
ghost use Rattle.mdr_gen.specs.Generator.{next, line_by, line_of, lines_from};

use crate::put::{put_number, put_word};
use std::alloc::{AllocError, Global};

/// The number behind another one.
fn next(x: u64) -> u64
    ensures { result ≡ next x }
{
    x.wrapping_mul(6_364_136_223_846_793_005)
        .wrapping_add(1_442_695_040_888_963_407)
}

fn put_add(alloc: Global, out: &mut Vec<u8>, value: u64) -> Result<(), AllocError>
    ensures { OnOk result (out.new.items ≡ out.old.items ++ (codes "call add " ++ (decimal value ++ codes "\n"))) }
{
    put_word(out, "call add ")?;
    put_number(alloc, out, u128::from(value))?;
    put_word(out, "\n")
}

/// Two kinds of four add a value, one walks, and one drops.
#[tactic(auto, unfolding(crate::specs::Generator::line_by))]
fn put_by(alloc: Global, out: &mut Vec<u8>, kind: u64, value: u64) -> Result<(), AllocError>
    ensures { OnOk result (out.new.items ≡ out.old.items ++ line_by kind value) }
{
    if kind < 2 {
        put_add(alloc, out, value)
    } else if kind == 2 {
        put_word(out, "call walk\n")
    } else {
        put_word(out, "call drop\n")
    }
}

/// The line that a number stands for.
fn put_line(alloc: Global, out: &mut Vec<u8>, x: u64) -> Result<(), AllocError>
    ensures { OnOk result (out.new.items ≡ out.old.items ++ line_of x) }
{
    put_by(alloc, out, x / (1 << 33) % 4, x / (1 << 40) % 1000)
}

fn put_lines(alloc: Global, out: &mut Vec<u8>, seed: u64, size: u64) -> Result<(), AllocError>
    ensures { OnOk result (out.new.items ≡ out.old.items ++ lines_from seed size) }
{
    let mut x = seed;
    let mut left = size;
    while left > 0 {
        x = next(x);
        put_line(alloc, out, x)?;
        left -= 1;
    }
    Ok(())
}

/// So many lines, of the numbers behind the seed.
pub fn script_text(alloc: Global, seed: u64, size: u64) -> Result<Vec<u8>, AllocError>
    ensures { IfOk result (λ text. text.items ≡ lines_from seed size) }
{
    let mut out = Vec::new(alloc);
    put_lines(alloc, &mut out, seed, size)?;
    Ok(out)
}
