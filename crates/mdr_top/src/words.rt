// The words after the program's name.

ghost use Rattle.std.specs.Prelude.{◌≡◌, map, option_map, string_bytes};
ghost use Rattle.mdr_top.specs.Budgets.{budget_of};
ghost use Rattle.mdr_top.specs.Words.{cutting_of, cut_of, whole_way, split_way, way_by, way_of, run_as, run_of, recipe_by, recipe_of, verify_of};

use crate::flags::{Flags, flags_of};
use crate::manner::Manner;
use crate::recipe::Recipe;
use crate::split_manner::SplitManner;
use crate::ticks::{seed_of, size_of};

/// What is asked of a source that is cut.
#[derive(Clone, Copy)]
pub enum Cutting {
    /// Its texts, in files.
    Split,
    /// Its calls and its plan.
    Report,
}

/// The way in which a script is run over a source.
#[derive(Clone, Copy)]
pub enum Way {
    /// On one memory.
    Whole(Manner),
    /// Over its two halves.
    Split(SplitManner),
}

fn asked(word: &str) -> Option<Cutting>
    ensures { result ≡ cutting_of word.now }
{
    if word == "split" {
        Some(Cutting::Split)
    } else if word == "report" {
        Some(Cutting::Report)
    } else {
        None
    }
}

/// The source's name and what is asked of it, where the words are `split FILE` or `report FILE`.
pub(crate) fn cut_of(words: &[String]) -> Option<(Cutting, &str)>
    ensures { option_map (λ x. (x.0, x.1.now)) result ≡ cut_of (map string_bytes words.now) }
{
    match words {
        [word, file] => match asked(word.as_str()) {
            Some(how) => Some((how, file.as_str())),
            None => None,
        },
        _ => None,
    }
}

/// The budget where nothing is said of it.
pub(crate) const TICKS: u64 = 1_000_000;

fn budget_of(ticks: Option<u64>) -> u64
    ensures { result ≡ budget_of ticks }
{
    match ticks {
        Some(ticks) => ticks,
        None => TICKS,
    }
}

/// A run on one memory, where it has these flags.
fn whole_way(flags: Flags) -> Option<Way>
    ensures { result ≡ whole_way flags }
{
    if flags.wire || flags.region {
        None
    } else {
        Some(Way::Whole(Manner {
            ticks: budget_of(flags.ticks),
            watched: flags.watch,
        }))
    }
}

/// A run over two halves, where it has these flags.
fn split_way(flags: Flags) -> Option<Way>
    ensures { result ≡ split_way flags }
{
    if flags.watch {
        None
    } else {
        Some(Way::Split(SplitManner {
            ticks: budget_of(flags.ticks),
            wire: flags.wire,
            region: flags.region,
        }))
    }
}

fn way_by(mode: &str, flags: Flags) -> Option<Way>
    ensures { result ≡ way_by mode.now flags }
{
    if mode == "whole" {
        whole_way(flags)
    } else if mode == "split" {
        split_way(flags)
    } else {
        None
    }
}

/// The way that the mode and the words behind the names say.
fn way_of(mode: &str, words: &[String]) -> Option<Way>
    ensures { result ≡ way_of mode.now (map string_bytes words.now) }
{
    match flags_of(words) {
        Some(flags) => way_by(mode, flags),
        None => None,
    }
}

/// The mode, the names of the source and of the script, and the words behind them, where the words are
/// `run MODE FILE SCRIPT` and perhaps more.
fn run_as(words: &[String]) -> Option<(&str, &str, &str, &[String])>
    ensures { option_map (λ x. (x.0.now, x.1.now, x.2.now, map string_bytes x.3.now)) result ≡ run_as (map string_bytes words.now) }
{
    match words {
        [run, mode, file, script, others @ ..] if run.as_str() == "run" => {
            Some((mode.as_str(), file.as_str(), script.as_str(), others))
        }
        _ => None,
    }
}

/// The names and the way of a run.
pub(crate) fn run_of(words: &[String]) -> Option<(&str, &str, Way)>
    ensures { option_map (λ x. (x.0.now, x.1.now, x.2)) result ≡ run_of (map string_bytes words.now) }
{
    let (mode, file, script, others) = run_as(words)?;
    let way = way_of(mode, others)?;
    Some((file, script, way))
}

fn recipe_by(seed: Option<u64>, size: Option<u64>) -> Option<Recipe>
    ensures { result ≡ recipe_by seed size }
{
    match seed {
        Some(seed) => match size {
            Some(size) => Some(Recipe { seed, size }),
            None => None,
        },
        None => None,
    }
}

/// The seed and the number of lines, where the words are `gen SEED SIZE`.
pub(crate) fn recipe_of(words: &[String]) -> Option<Recipe>
    ensures { result ≡ recipe_of (map string_bytes words.now) }
{
    match words {
        [gen_word, seed, size] if gen_word.as_str() == "gen" => {
            recipe_by(seed_of(seed.as_str()), size_of(size.as_str()))
        }
        _ => None,
    }
}

/// The names of the source, of the script and of the transcript, where the words are `verify FILE SCRIPT TRANSCRIPT`.
pub(crate) fn verify_of(words: &[String]) -> Option<(&str, &str, &str)>
    ensures { option_map (λ x. (x.0.now, x.1.now, x.2.now)) result ≡ verify_of (map string_bytes words.now) }
{
    match words {
        [verify, file, script, transcript] if verify.as_str() == "verify" => {
            Some((file.as_str(), script.as_str(), transcript.as_str()))
        }
        _ => None,
    }
}
