// Where a writer keeps its bytes, since the camera has no heap for a `Vec`. There are few at first: most frames need no
// more, and clearing room for the largest takes longer than coding a small one.
#[derive(Drop)]
pub enum Store {
    Few([u8; 1024]),
    Many([u8; 62728]),
}
