// Two shapes, and calls with each refusal as its number.
use runs::{Offer, Recorder, Refusal, Shape};

pub const SINGLES: Shape = Shape {
    width: 1,
    longest: 9,
};

pub const PAIRS: Shape = Shape {
    width: 2,
    longest: 10,
};

pub fn numbered(answer: Result<(), Refusal>) -> Result<(), u8> {
    answer.map_err(|refusal| refusal.number())
}

pub fn offer(stay: i64, values: &[i64]) -> Offer<'_> {
    Offer { stay, values }
}

pub fn feed<R: Recorder>(recorder: &mut R, stay: i64, values: &[i64]) -> Result<(), u8> {
    numbered(recorder.feed(offer(stay, values)))
}

pub fn close<R: Recorder>(recorder: &mut R) -> Result<(), u8> {
    numbered(recorder.close())
}
