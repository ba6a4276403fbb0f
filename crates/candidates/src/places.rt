// The lists that an entry can stand in.
use parts::words::Operator;

#[derive(Clone, Copy)]
pub enum Place {
    Action,
    Resource,
    Row(Operator),
}
