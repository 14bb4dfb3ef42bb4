// What planning the rest is lent.

// What is wanted: a least and a most for each frame of the shift, recorded ones included.
#[derive(Clone, Copy)]
pub struct Wanted<'a> {
    pub least: &'a [u32],
    pub most: &'a [u32],
}

// What planning the rest goes by: a harvest for each frame of the shift, and what is wanted.
#[derive(Clone, Copy)]
pub struct Outlook<'a> {
    pub harvest: &'a [u32],
    pub wanted: Wanted<'a>,
}
