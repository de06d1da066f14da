// The forms of expressions (C99 6.5), each with how many levels are below its own.

ghost use Rattle.std.specs.Prelude.{◌≡◌, ◌<◌, ◌≤◌, ◌+◌, suc, max, map, length, IfOk, IfErr, Ok, true, false, [], ◌∷◌, ◌++◌};
ghost use Rattle.mdr_syntax.specs.declared.token.Token.{Token as token_value};
ghost use Rattle.mdr_syntax.specs.declared.tree.FormWhat;
ghost use Rattle.mdr_grammar.specs.Expressions.{form_at, name_form, number_form, text_form, text_of as text_in, height, highest, binary as binary_form};
ghost use Rattle.mdr_expression.specs.Tails.{operand_of};
ghost use Rattle.mdr_reader.specs.declared.failure.Failure.TheVariants.{Memory};

use crate::parts::{Arguments, Part};
use mdr_core::{Boxed, Items, Name, Place};
use mdr_reader::failure::Failure;
use mdr_reader::look::{Reader, copied, kind_in, number_in, text_of};
use mdr_syntax::{Base, Form, FormWhat, Token};

fn text(reader: Reader, token: &Token) -> Result<Name, Failure>
    ensures value { IfOk result (λ n. n ≡ text_in token.now.what) }
    ensures memory { IfErr result (λ e. e ≡ Memory) }
{
    Ok(copied(reader.alloc, text_of(&token.what))?)
}

/// A form in its box.
fn boxed(reader: Reader, place: Place, what: FormWhat) -> Result<Boxed<Form>, Failure>
    ensures value { IfOk result (λ f. f ≡ form_at place what) }
    ensures memory { IfErr result (λ e. e ≡ Memory) }
{
    Ok(Boxed::new(reader.alloc, Form { place, what })?)
}

/// A name as a form.
#[tactic(auto, unfolding(mdr_grammar::specs::Expressions::height))]
pub fn name_part(reader: Reader, token: &Token) -> Result<Part, Failure>
    ensures value { IfOk result (λ p. operand_of p ≡ record { form = name_form token.now; alone = false }) }
    ensures measured { IfOk result (λ p. (p.height ≡ height p.form) × (p.height ≡ 0)) }
    ensures memory { IfErr result (λ e. e ≡ Memory) }
{
    let what = FormWhat::Name(text(reader, token)?);
    Ok(Part {
        form: boxed(reader, token.place, what)?,
        alone: false,
        height: 0,
    })
}

/// A number as a form.
#[tactic(auto, unfolding(mdr_grammar::specs::Expressions::height))]
pub fn number_part(reader: Reader, token: &Token) -> Result<Part, Failure>
    ensures value { IfOk result (λ p. operand_of p ≡ record { form = number_form token.now; alone = false }) }
    ensures measured { IfOk result (λ p. (p.height ≡ height p.form) × (p.height ≡ 0)) }
    ensures memory { IfErr result (λ e. e ≡ Memory) }
{
    let what = FormWhat::Number(number_in(&token.what), kind_in(&token.what));
    Ok(Part {
        form: boxed(reader, token.place, what)?,
        alone: false,
        height: 0,
    })
}

/// A form of one operand, with the punctuation of its operator.
#[tactic(auto, unfolding(mdr_grammar::specs::Expressions::height))]
pub fn prefix_part(reader: Reader, token: &Token, x: Part, alone: bool) -> Result<Part, Failure>
    requires low { x.height < 256 }
    ensures value { IfOk result (λ p. operand_of p ≡ record { form = form_at token.now.place (FormWhat.Prefix (text_in token.now.what) x.form); alone = alone }) }
    ensures measured { x.height ≡ height x.form → IfOk result (λ p. (p.height ≡ height p.form) × (p.height ≡ x.height + 1)) }
    ensures memory { IfErr result (λ e. e ≡ Memory) }
{
    let what = FormWhat::Prefix(text(reader, token)?, x.form);
    Ok(Part {
        form: boxed(reader, token.place, what)?,
        alone,
        height: x.height + 1,
    })
}

/// A form of two operands.
#[tactic(auto, unfolding(mdr_grammar::specs::Expressions::height))]
pub fn binary_part(reader: Reader, token: &Token, a: Part, b: Part) -> Result<Part, Failure>
    requires low { (a.height < 256) × (b.height < 256) }
    ensures value { IfOk result (λ p. p.form ≡ binary_form a.form token.now b.form) }
    ensures measured { a.height ≡ height a.form → b.height ≡ height b.form → IfOk result (λ p. (p.height ≡ height p.form) × (p.height ≡ suc (max a.height b.height))) }
    ensures memory { IfErr result (λ e. e ≡ Memory) }
{
    let height = a.height.max(b.height) + 1;
    let what = FormWhat::Binary(text(reader, token)?, a.form, b.form);
    Ok(Part {
        form: boxed(reader, token.place, what)?,
        alone: false,
        height,
    })
}

/// A text as a form.
#[tactic(auto, unfolding(mdr_grammar::specs::Expressions::height))]
pub fn text_part(reader: Reader, token: &Token) -> Result<Part, Failure>
    ensures value { IfOk result (λ p. operand_of p ≡ record { form = text_form token.now; alone = false }) }
    ensures measured { IfOk result (λ p. (p.height ≡ height p.form) × (p.height ≡ 0)) }
    ensures memory { IfErr result (λ e. e ≡ Memory) }
{
    let what = FormWhat::Text(text(reader, token)?);
    Ok(Part {
        form: boxed(reader, token.place, what)?,
        alone: false,
        height: 0,
    })
}

/// `NULL`.
#[tactic(auto, unfolding(mdr_grammar::specs::Expressions::height))]
pub fn null_part(reader: Reader, token: &Token) -> Result<Part, Failure>
    ensures value { IfOk result (λ p. operand_of p ≡ record { form = form_at token.now.place FormWhat.Null; alone = false }) }
    ensures measured { IfOk result (λ p. (p.height ≡ height p.form) × (p.height ≡ 0)) }
    ensures memory { IfErr result (λ e. e ≡ Memory) }
{
    let what = FormWhat::Null;
    Ok(Part {
        form: boxed(reader, token.place, what)?,
        alone: false,
        height: 0,
    })
}

/// A type as an argument.
#[tactic(auto, unfolding(mdr_grammar::specs::Expressions::height))]
pub fn type_part(reader: Reader, token: &Token, base: Base, stars: u32) -> Result<Part, Failure>
    ensures value { IfOk result (λ p. operand_of p ≡ record { form = form_at token.now.place (FormWhat.Base base stars); alone = false }) }
    ensures measured { IfOk result (λ p. (p.height ≡ height p.form) × (p.height ≡ 0)) }
    ensures memory { IfErr result (λ e. e ≡ Memory) }
{
    let what = FormWhat::Base(base, stars);
    Ok(Part {
        form: boxed(reader, token.place, what)?,
        alone: false,
        height: 0,
    })
}

/// `x++` or `x--`.
#[tactic(auto, unfolding(mdr_grammar::specs::Expressions::height))]
pub fn post_part(reader: Reader, first: Place, token: &Token, x: Part) -> Result<Part, Failure>
    requires low { x.height < 256 }
    ensures value { IfOk result (λ p. operand_of p ≡ record { form = form_at first (FormWhat.Post (text_in token.now.what) x.form); alone = true }) }
    ensures measured { x.height ≡ height x.form → IfOk result (λ p. (p.height ≡ height p.form) × (p.height ≡ x.height + 1)) }
    ensures memory { IfErr result (λ e. e ≡ Memory) }
{
    let what = FormWhat::Post(text(reader, token)?, x.form);
    Ok(Part {
        form: boxed(reader, first, what)?,
        alone: true,
        height: x.height + 1,
    })
}

/// A member of a form.
#[tactic(auto, unfolding(mdr_grammar::specs::Expressions::height))]
pub fn member_part(
    reader: Reader,
    first: Place,
    x: Part,
    is_arrow: bool,
    name: &Token,
) -> Result<Part, Failure>
    requires low { x.height < 256 }
    ensures value { IfOk result (λ p. operand_of p ≡ record { form = form_at first (FormWhat.Member x.form is_arrow name.now.place (text_in name.now.what)); alone = false }) }
    ensures measured { x.height ≡ height x.form → IfOk result (λ p. (p.height ≡ height p.form) × (p.height ≡ x.height + 1)) }
    ensures memory { IfErr result (λ e. e ≡ Memory) }
{
    let member = text(reader, name)?;
    let what = FormWhat::Member(x.form, is_arrow, name.place, member);
    Ok(Part {
        form: boxed(reader, first, what)?,
        alone: false,
        height: x.height + 1,
    })
}

/// An element of an array.
#[tactic(auto, unfolding(mdr_grammar::specs::Expressions::height))]
pub fn subscript_part(reader: Reader, first: Place, x: Part, index: Part) -> Result<Part, Failure>
    requires low { (x.height < 256) × (index.height < 256) }
    ensures value { IfOk result (λ p. operand_of p ≡ record { form = form_at first (FormWhat.Subscript x.form index.form); alone = false }) }
    ensures measured { x.height ≡ height x.form → index.height ≡ height index.form → IfOk result (λ p. (p.height ≡ height p.form) × (p.height ≡ suc (max x.height index.height))) }
    ensures memory { IfErr result (λ e. e ≡ Memory) }
{
    let height = x.height.max(index.height) + 1;
    let what = FormWhat::Subscript(x.form, index.form);
    Ok(Part {
        form: boxed(reader, first, what)?,
        alone: false,
        height,
    })
}

/// A cast to a type.
#[tactic(auto, unfolding(mdr_grammar::specs::Expressions::height))]
pub fn cast_part(
    reader: Reader,
    first: Place,
    base: Base,
    stars: u32,
    x: Part,
) -> Result<Part, Failure>
    requires low { x.height < 256 }
    ensures value { IfOk result (λ p. operand_of p ≡ record { form = form_at first (FormWhat.Cast base stars x.form); alone = false }) }
    ensures measured { x.height ≡ height x.form → IfOk result (λ p. (p.height ≡ height p.form) × (p.height ≡ x.height + 1)) }
    ensures memory { IfErr result (λ e. e ≡ Memory) }
{
    let what = FormWhat::Cast(base, stars, x.form);
    Ok(Part {
        form: boxed(reader, first, what)?,
        alone: false,
        height: x.height + 1,
    })
}

/// `c ? a : b`.
#[tactic(auto, unfolding(mdr_grammar::specs::Expressions::height))]
pub fn choice_part(
    reader: Reader,
    token: &Token,
    c: Part,
    a: Part,
    b: Part,
) -> Result<Part, Failure>
    requires low { (c.height < 256) × (a.height < 256) × (b.height < 256) }
    ensures value { IfOk result (λ p. p.form ≡ form_at token.now.place (FormWhat.Choice c.form a.form b.form)) }
    ensures measured { c.height ≡ height c.form → a.height ≡ height a.form → b.height ≡ height b.form → IfOk result (λ p. (p.height ≡ height p.form) × (p.height ≡ suc (max c.height (max a.height b.height)))) }
    ensures memory { IfErr result (λ e. e ≡ Memory) }
{
    let height = c.height.max(a.height.max(b.height)) + 1;
    let what = FormWhat::Choice(c.form, a.form, b.form);
    Ok(Part {
        form: boxed(reader, token.place, what)?,
        alone: false,
        height,
    })
}

/// No arguments.
pub fn no_arguments(reader: Reader) -> Arguments
    ensures value { result.forms ≡ [] }
    ensures measured { result.highest ≡ 0 }
{
    Arguments {
        forms: Items::new(reader.alloc),
        highest: 0,
    }
}

/// One argument more.
pub fn with_argument(arguments: Arguments, part: Part) -> Result<Arguments, Failure>
    requires low { (part.height ≤ 256) × (arguments.highest ≤ 257) }
    ensures value { IfOk result (λ a. a.forms ≡ arguments.forms ++ (part.form ∷ [])) }
    ensures measured { part.height ≡ height part.form → arguments.highest ≡ highest (map height arguments.forms) → IfOk result (λ a. (a.highest ≡ highest (map height a.forms)) × (a.highest ≡ max arguments.highest (suc part.height))) }
    ensures memory { IfErr result (λ e. e ≡ Memory) }
{
    let highest = arguments.highest.max(part.height + 1);
    let mut forms = arguments.forms;
    forms.push(part.form.into_inner())?;
    Ok(Arguments { forms, highest })
}

/// One argument.
pub fn one_argument(reader: Reader, part: Part) -> Result<Arguments, Failure>
    requires low { part.height ≤ 256 }
    ensures value { IfOk result (λ a. a.forms ≡ part.form ∷ []) }
    ensures measured { part.height ≡ height part.form → IfOk result (λ a. (a.highest ≡ highest (map height a.forms)) × (a.highest ≡ suc part.height)) }
    ensures memory { IfErr result (λ e. e ≡ Memory) }
{
    with_argument(no_arguments(reader), part)
}

/// A call of a form with arguments.
#[tactic(auto, unfolding(mdr_grammar::specs::Expressions::height))]
pub fn call_part(
    reader: Reader,
    first: Place,
    x: Part,
    arguments: Arguments,
) -> Result<Part, Failure>
    requires low { (x.height < 256) × (arguments.highest ≤ 256) }
    ensures value { IfOk result (λ p. operand_of p ≡ record { form = form_at first (FormWhat.Call x.form arguments.forms); alone = true }) }
    ensures measured { x.height ≡ height x.form → arguments.highest ≡ highest (map height arguments.forms) → IfOk result (λ p. (p.height ≡ height p.form) × (p.height ≡ max (suc x.height) arguments.highest)) }
    ensures memory { IfErr result (λ e. e ≡ Memory) }
{
    let height = (x.height + 1).max(arguments.highest);
    let what = FormWhat::Call(x.form, arguments.forms);
    Ok(Part {
        form: boxed(reader, first, what)?,
        alone: true,
        height,
    })
}
