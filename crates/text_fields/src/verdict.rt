// What one line comes to.
#[derive(Clone, Copy)]
pub enum Verdict {
    Agrees,
    Differs,
    // This program's buffers do not hold it.
    TooLarge,
    // It holds no answer.
    NoAnswer,
}

impl Verdict {
    pub fn of(same: bool) -> Verdict {
        if same {
            Verdict::Agrees
        } else {
            Verdict::Differs
        }
    }
}
