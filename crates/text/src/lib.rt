// Text in a lent buffer: bytes, numbers, fields and lines, and a whole text handed over.
#![tactic(auto)]

pub mod lines;
pub mod printing;
pub mod text;

// Masks are hexadecimal, all other numbers decimal.
#[derive(Clone, Copy)]
pub enum Base {
    Decimal,
    Hexadecimal,
}
