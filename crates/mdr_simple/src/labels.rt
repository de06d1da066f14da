// Labels of a `switch` (C99 6.8.1).

ghost use Rattle.std.specs.Prelude.{◌≡◌, ◌<◌, ◌≤◌, length, IfOk, IfErr, IfSome, true, [], ◌∷◌};
ghost use Rattle.mdr_grammar.specs.Forms.Part.{label as a_label};
ghost use Rattle.mdr_grammar.specs.Forms.Repeated.{labels as some_labels};
ghost use Rattle.mdr_grammar.specs.Forms.Nonterminal.{part, option, many};
ghost use Rattle.mdr_grammar.specs.Front.{first, front};
ghost use Rattle.mdr_grammar.specs.Statements.{label_rule};
ghost use Rattle.mdr_reader.specs.Gives.{Gives, Tells, Behind};
ghost use Rattle.mdr_reader.specs.declared.failure.Failure.TheVariants.{Memory};
ghost use Rattle.mdr_grammar.specs.declared.sort.Sort.TheVariants as sort_is;

use mdr_core::Items;
use mdr_grammar::sort::Sort;
use mdr_reader::constants::constant;
use mdr_reader::failure::{Failure, Refused};
use mdr_reader::look::{Reader, split, take};
use mdr_reader::openings::perhaps;
use mdr_syntax::{Label, Token};

/// What stands behind `case`.
fn case_behind<'t>(
    reader: Reader,
    tokens: &'t [Token],
    word: &Token,
) -> Result<(Label, &'t [Token]), Failure>
    ensures reads { Behind (label_rule sort_is.Case word.now) (λ r. Gives (λ x. x.0) (λ x. x.1.now) result (front reader.halves r tokens.now)) }
    ensures shorter { IfOk result (λ x. length x.1.now < length tokens.now) }
{
    let (value, rest) = constant(reader, tokens)?;
    let (_, rest) = take(reader.halves, Sort::Colon, rest)?;
    Ok((
        Label {
            place: word.place,
            value: Some(value),
        },
        rest,
    ))
}

/// What stands behind `default`.
fn default_behind<'t>(
    reader: Reader,
    tokens: &'t [Token],
    word: &Token,
) -> Result<(Label, &'t [Token]), Refused>
    ensures reads { Behind (label_rule sort_is.Default word.now) (λ r. Tells (λ x. x.0) (λ x. x.1.now) result (front reader.halves r tokens.now)) }
    ensures shorter { IfOk result (λ x. length x.1.now < length tokens.now) }
{
    let (_, rest) = take(reader.halves, Sort::Colon, tokens)?;
    Ok((
        Label {
            place: word.place,
            value: None,
        },
        rest,
    ))
}

/// A label of a `switch`.
pub fn label(reader: Reader, tokens: &[Token]) -> Result<(Label, &[Token]), Failure>
    ensures reads { Gives (λ x. x.0) (λ x. x.1.now) result (first reader.halves (part a_label) tokens.now) }
    ensures shorter { IfOk result (λ x. length x.1.now < length tokens.now) }
{
    let Some((sort, token, rest)) = split(reader.halves, tokens) else {
        return Err(Failure::Fault(tokens.len()));
    };
    match sort {
        Sort::Case => case_behind(reader, rest, token),
        Sort::Default => Ok(default_behind(reader, rest, token)?),
        _ => Err(Failure::Fault(tokens.len())),
    }
}

/// A label, if there is one.
fn label_option(reader: Reader, tokens: &[Token]) -> Result<(Option<Label>, &[Token]), Failure>
    ensures reads { Gives (λ x. x.0) (λ x. x.1.now) result (first reader.halves (option true a_label) tokens.now) }
    ensures shorter { IfOk result (λ x. length x.1.now ≤ length tokens.now) }
    ensures taken { IfOk result (λ x. IfSome x.0 (λ v. length x.1.now < length tokens.now)) }
{
    perhaps(label(reader, tokens), tokens)
}

/// A list of one label.
pub fn one_label(reader: Reader, label: Label) -> Result<Items<Label>, Failure>
    ensures value { IfOk result (λ l. l ≡ label ∷ []) }
    ensures memory { IfErr result (λ e. e ≡ Memory) }
{
    let mut list = Items::new(reader.alloc);
    list.push(label)?;
    Ok(list)
}

/// The further labels of a clause.
pub fn more_labels(
    reader: Reader,
    tokens: &[Token],
    list: Items<Label>,
) -> Result<(Items<Label>, &[Token]), Failure>
    ensures reads { Gives (λ x. x.0) (λ x. x.1.now) result (first reader.halves (many true some_labels list) tokens.now) }
    ensures shorter { IfOk result (λ x. length x.1.now ≤ length tokens.now) }
{
    let mut all = list;
    let mut rest = tokens;
    'more: loop {
        let (found, behind) = label_option(reader, rest)?;
        let Some(x) = found else {
            return Ok((all, behind));
        };
        all.push(x)?;
        rest = behind;
    }
}
