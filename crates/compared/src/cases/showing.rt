// What the answers of several kinds of case show alike.
use recordings::refusal::OpeningRefusal;
use std::fmt;

// Why a recording does not open.
#[derive(Clone, Copy)]
pub(crate) struct Refused(pub(crate) OpeningRefusal);

impl fmt::Display for Refused {
    fn fmt<W: fmt::Write>(&self, f: &mut fmt::Formatter<W>) -> fmt::Result {
        let number = self.0.number();
        let place = self.0.place();
        write!(f, "refused {number} at byte {place}")
    }
}
