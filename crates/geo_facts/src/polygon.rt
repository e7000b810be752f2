use poly_exact::Ring;

/// A polygon without holes: a ring, and its name.
#[derive(Drop)]
pub struct Polygon {
    pub name: String,
    pub ring: Ring,
}
