//! Tables of numbers and of marks. What isn't there is read as 0 or as no mark.

pub fn at(numbers: &[u32], place: u32) -> u32 {
    numbers.get(place as usize).copied().unwrap_or(0)
}

pub fn put(numbers: &mut [u32], place: u32, number: u32) {
    if let Some(own) = numbers.get_mut(place as usize) {
        *own = number;
    }
}

pub fn is_in(marks: &[bool], place: u32) -> bool {
    marks.get(place as usize).copied().unwrap_or(false)
}

pub fn mark(marks: &mut [bool], place: u32) {
    if let Some(own) = marks.get_mut(place as usize) {
        *own = true;
    }
}
