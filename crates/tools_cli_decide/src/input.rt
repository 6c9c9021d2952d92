/// A file that was read.
#[derive(Drop)]
pub struct Input<'a> {
    pub name: &'a str,
    pub bytes: Vec<u8>,
}
