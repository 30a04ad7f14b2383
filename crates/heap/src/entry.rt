// An object in the object table: the cells it covers, where in the reference table its references begin, and how many there are. Indices, since the references of all objects lie in one lent table.
#[derive(Clone, Copy, Default, PartialEq, Eq, Debug)]
pub struct ObjectEntry {
    pub at: u16,
    pub len: u16,
    pub first: u32,
    pub count: u32,
}
