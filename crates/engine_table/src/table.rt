// The open levels of the 32 projects in one flat array: row k ends where the next one starts.

#[derive(Clone, Copy)]
pub struct Table {
    pub levels: [u32; 288],
    pub ends: [usize; 32],
}

impl Table {
    // The most levels: 32 times the 8 that a developer declares, and 0 once for each project.
    pub const MOST: usize = 288;
}
