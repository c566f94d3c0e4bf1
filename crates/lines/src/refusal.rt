// Why a line is refused, with its offset.

#[derive(Clone, Copy, Debug, PartialEq, Eq)]
pub enum Refusal {
    Form(usize),
    Range(usize),
    Name(usize),
    SameName(usize),
    TooManyStops(usize),
}
