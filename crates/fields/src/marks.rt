// The numbers of a field as a mask, and whether all were in range.
ghost use Rattle.std.specs.Prelude.{◌≡◌};
ghost use Rattle.fields.specs.Elements.{form_of};
ghost use Rattle.fields.specs.Marked.{marks_with, marks_of};

use crate::element::Element;
use crate::field::CronField;

#[derive(Clone, Copy)]
pub(crate) struct Marks {
    pub mask: u64,
    // Not good, it keeps its marks: a later form error comes first, and reading goes on.
    pub good: bool,
}

impl Marks {
    // With the numbers first to last, or not good where one lies outside the field's or the first is above the last.
    #[tactic(auto, using(crate::proofs::Numbers::marking))]
    pub(crate) fn with<F: CronField>(self, first: u64, last: u64) -> Marks
        ensures { result ≡ marks_with F.LOW F.HIGH self first last }
    {
        if first < F::LOW || F::HIGH < last || last < first {
            return Marks {
                mask: self.mask,
                good: false,
            };
        }
        Marks {
            mask: self.mask | ((1 << (last + 1)) - (1 << first)),
            good: self.good,
        }
    }

    // With an element's numbers.
    #[tactic(auto, unfolding(crate::specs::Marked::marks_of))]
    pub(crate) fn with_element<F: CronField>(self, x: Element) -> Marks
        ensures { result ≡ marks_of F.LOW F.HIGH self (form_of x) }
    {
        match x {
            Element::One(n) => self.with::<F>(n, n),
            Element::Range(first, last) => self.with::<F>(first, last),
        }
    }
}
