//! The fields of a request head by their names (RFC 9110, section 5.1).

ghost use Rattle.std.specs.Prelude.{length, All};
ghost use Rattle.httparse.specs.Spans.{IsHeaderWithin};

use crate::word::{Letters, is_same, lists};
use httparse::spans::HeaderSpan;

/// Fields of a head that `httparse` read: the octets of the head, and where each name and value stands in them.
#[derive(Clone, Copy)]
pub(crate) struct Fields<'h> {
    pub(crate) head: &'h [u8],
    pub(crate) spans: &'h [HeaderSpan],
    ghost within: { All (IsHeaderWithin (length head.now)) spans.now },
}

impl<'h> Fields<'h> {
    ghost use Rattle.std.specs.Prelude.{◌≡◌, ◌<◌, ◌∷◌, [], MatchOption, IfSome, option_copied};
    ghost use Rattle.upgrade_head.specs.Field.{values_of, has_field, has_value, has_element, only_value};
    ghost use Rattle.upgrade_head.specs.View.{fields_seen};

    /// The value of the first field of this name, and the fields behind it. Letters have no case in names.
    fn first_named(self, name: &[u8]) -> Option<(&'h [u8], Fields<'h>)>
        ensures found { MatchOption result
            (values_of name.now (fields_seen self.entry) ≡ [])
            (λ first. values_of name.now (fields_seen self.entry) ≡ first.0.now ∷ values_of name.now (fields_seen first.1)) }
        ensures fewer { IfSome result (λ first. length first.1.spans.now < length self.entry.spans.now) }
    {
        let mut rest = self.spans;
        'fields: while let Some((field, behind)) = rest.split_first() {
            if is_same(Letters::AnyCase, field.name.of(self.head), name) {
                let fields = Fields {
                    head: self.head,
                    spans: behind,
                };
                return Some((field.value.of(self.head), fields));
            }
            rest = behind;
        }
        None
    }

    /// Whether some field has this name.
    pub(crate) fn has_field(self, name: &[u8]) -> bool
        ensures { result ≡ has_field name.now (fields_seen self.entry) }
    {
        match self.first_named(name) {
            Some(_) => true,
            None => false,
        }
    }

    /// Whether some field of this name has this value.
    pub(crate) fn has_value(self, name: &[u8], wanted: &[u8]) -> bool
        ensures { result ≡ has_value name.now wanted.now (fields_seen self.entry) }
    {
        let mut rest = self;
        'fields: while let Some((value, behind)) = rest.first_named(name) {
            if value == wanted {
                return true;
            }
            rest = behind;
        }
        false
    }

    /// Whether some field of this name has the word as an element.
    pub(crate) fn has_element(self, letters: Letters, name: &[u8], word: &[u8]) -> bool
        ensures { result ≡ has_element letters name.now word.now (fields_seen self.entry) }
    {
        let mut rest = self;
        'fields: while let Some((value, behind)) = rest.first_named(name) {
            if lists(letters, word, value) {
                return true;
            }
            rest = behind;
        }
        false
    }

    /// The value of the field of this name, where there is exactly one.
    pub(crate) fn only_value(self, name: &[u8]) -> Option<&'h [u8]>
        ensures { option_copied result ≡ only_value name.now (fields_seen self.entry) }
    {
        let (value, behind) = self.first_named(name)?;
        if behind.first_named(name).is_some() {
            return None;
        }
        Some(value)
    }
}
