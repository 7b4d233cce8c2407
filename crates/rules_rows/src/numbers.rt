// What is read of a link and of an edge.
#[derive(Clone, Copy)]
pub struct LinkNumbers {
    pub activation: u8,
    pub finish: u8,
    pub least: u16,
    pub most: u16,
}

// An edge but for the point where it starts, and the next edge that starts there.
#[derive(Clone, Copy)]
pub struct EdgeNumbers {
    pub to: u8,
    pub label: u8,
    pub up: u16,
    pub down: u16,
    pub next: Option<u8>,
}

impl LinkNumbers {
    pub const NONE: LinkNumbers = LinkNumbers {
        activation: 0,
        finish: 0,
        least: 0,
        most: 0,
    };
}

impl EdgeNumbers {
    pub const NONE: EdgeNumbers = EdgeNumbers {
        to: 0,
        label: 0,
        up: 0,
        down: 0,
        next: None,
    };
}
