// What a line of the report says, where it is of its form and its count is in range.
#[derive(Clone, Copy)]
pub struct Usage<'a> {
    pub name: &'a [u8],
    pub count: u16,
}
