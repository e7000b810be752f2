//! Rings as texts of their points.
use poly_exact::{Point, Ring};
use std::alloc::{AllocError, Global};
use std::process::Abort;
use std::test::Fail;

/// The points of a text such as `0 0 4 0 0 4`.
pub(crate) fn points(alloc: Global, text: &str) -> Result<Vec<Point>, AllocError> {
    let mut points = Vec::new(alloc);
    let mut first: Option<i64> = None;
    for word in text.split_whitespace() {
        let number = word.parse::<i64>().unwrap_or(0);
        first = match first {
            None => Some(number),
            Some(x) => {
                points.push(Point { x, y: number })?;
                None
            }
        };
    }
    Ok(points)
}

/// The ring of the points of a text.
pub(crate) fn ring(rt: &impl Abort, alloc: Global, text: &str) -> Result<Ring, Fail> {
    let given = points(alloc, text)?;
    assert!(rt; given.len() < 100);
    Ok(Ring::new(alloc, &given).ok().expect(rt, "a ring"))
}

/// Does nothing. Who calls it shows that its type can be shared by threads.
pub(crate) fn can_be_shared<T: Send + Sync>() {}
