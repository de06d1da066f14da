// Which operator a punctuation is (C99 6.4.6).

ghost use Rattle.std.specs.Prelude.{◌≡◌};
ghost use Rattle.mdr_operand.specs.Signs.{calculation, comparison, logical, binary_operator, prefix_operator, assignment_operator};

use mdr_core::{BinOp, RelOp};

/// An operator in front of its operand (C99 6.5.3).
#[derive(Clone, Copy)]
pub enum PrefixOperator {
    Promote,
    Negate,
    Flip,
    Not,
    Address,
    Target,
}

/// An operator between its operands (C99 6.5.5 to 6.5.14).
#[derive(Clone, Copy)]
pub enum BinaryOperator {
    Calculate(BinOp),
    Compare(RelOp),
    And,
    Or,
}

/// An assignment's operator (C99 6.5.16).
#[derive(Clone, Copy)]
pub enum AssignmentOperator {
    Plain,
    Compound(BinOp),
}

fn calculation(sign: &[u8]) -> Option<BinOp>
    ensures { result ≡ calculation sign.now }
{
    if sign == b"+".as_slice() {
        return Some(BinOp::Add);
    }
    if sign == b"-".as_slice() {
        return Some(BinOp::Sub);
    }
    if sign == b"*".as_slice() {
        return Some(BinOp::Mul);
    }
    if sign == b"/".as_slice() {
        return Some(BinOp::Div);
    }
    if sign == b"%".as_slice() {
        return Some(BinOp::Rem);
    }
    if sign == b"<<".as_slice() {
        return Some(BinOp::Shl);
    }
    if sign == b">>".as_slice() {
        return Some(BinOp::Shr);
    }
    if sign == b"&".as_slice() {
        return Some(BinOp::BitAnd);
    }
    if sign == b"|".as_slice() {
        return Some(BinOp::BitOr);
    }
    if sign == b"^".as_slice() {
        return Some(BinOp::BitXor);
    }
    None
}

fn comparison(sign: &[u8]) -> Option<RelOp>
    ensures { result ≡ comparison sign.now }
{
    if sign == b"==".as_slice() {
        return Some(RelOp::Eq);
    }
    if sign == b"!=".as_slice() {
        return Some(RelOp::Ne);
    }
    if sign == b"<".as_slice() {
        return Some(RelOp::Lt);
    }
    if sign == b"<=".as_slice() {
        return Some(RelOp::Le);
    }
    if sign == b">".as_slice() {
        return Some(RelOp::Gt);
    }
    if sign == b">=".as_slice() {
        return Some(RelOp::Ge);
    }
    None
}

fn logical(sign: &[u8]) -> Option<BinaryOperator>
    ensures { result ≡ logical sign.now }
{
    if sign == b"&&".as_slice() {
        return Some(BinaryOperator::And);
    }
    if sign == b"||".as_slice() {
        return Some(BinaryOperator::Or);
    }
    None
}

/// The operator between two operands.
pub fn binary_operator(sign: &[u8]) -> Option<BinaryOperator>
    ensures { result ≡ binary_operator sign.now }
{
    if let Some(op) = calculation(sign) {
        return Some(BinaryOperator::Calculate(op));
    }
    match comparison(sign) {
        Some(op) => Some(BinaryOperator::Compare(op)),
        None => logical(sign),
    }
}

/// The operator in front of an operand.
pub fn prefix_operator(sign: &[u8]) -> Option<PrefixOperator>
    ensures { result ≡ prefix_operator sign.now }
{
    if sign == b"+".as_slice() {
        return Some(PrefixOperator::Promote);
    }
    if sign == b"-".as_slice() {
        return Some(PrefixOperator::Negate);
    }
    if sign == b"~".as_slice() {
        return Some(PrefixOperator::Flip);
    }
    if sign == b"!".as_slice() {
        return Some(PrefixOperator::Not);
    }
    if sign == b"&".as_slice() {
        return Some(PrefixOperator::Address);
    }
    if sign == b"*".as_slice() {
        return Some(PrefixOperator::Target);
    }
    None
}

/// The operator of an assignment.
pub fn assignment_operator(sign: &[u8]) -> Option<AssignmentOperator>
    ensures { result ≡ assignment_operator sign.now }
{
    if sign == b"=".as_slice() {
        return Some(AssignmentOperator::Plain);
    }
    if sign == b"+=".as_slice() {
        return Some(AssignmentOperator::Compound(BinOp::Add));
    }
    if sign == b"-=".as_slice() {
        return Some(AssignmentOperator::Compound(BinOp::Sub));
    }
    if sign == b"*=".as_slice() {
        return Some(AssignmentOperator::Compound(BinOp::Mul));
    }
    if sign == b"/=".as_slice() {
        return Some(AssignmentOperator::Compound(BinOp::Div));
    }
    if sign == b"%=".as_slice() {
        return Some(AssignmentOperator::Compound(BinOp::Rem));
    }
    if sign == b"<<=".as_slice() {
        return Some(AssignmentOperator::Compound(BinOp::Shl));
    }
    if sign == b">>=".as_slice() {
        return Some(AssignmentOperator::Compound(BinOp::Shr));
    }
    if sign == b"&=".as_slice() {
        return Some(AssignmentOperator::Compound(BinOp::BitAnd));
    }
    if sign == b"|=".as_slice() {
        return Some(AssignmentOperator::Compound(BinOp::BitOr));
    }
    if sign == b"^=".as_slice() {
        return Some(AssignmentOperator::Compound(BinOp::BitXor));
    }
    None
}
