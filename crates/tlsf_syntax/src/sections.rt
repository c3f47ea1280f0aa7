//! The six sections of a text.

/// One thing for each section.
#[derive(Debug, Drop)]
pub struct Sections<T> {
    pub initially: T,
    pub preset: T,
    pub require: T,
    pub assert: T,
    pub assume: T,
    pub guarantee: T,
}
