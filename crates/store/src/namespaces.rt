// What is known of a namespace beside its parts.

#[derive(Clone, Copy, Default)]
pub struct Label {
    pub id: u32,
    pub index: u32,
    pub size: u32,
    pub count: u32,
    pub used: u32,
}
