//! What the owner of a site adds to it.
ghost use Rattle.std.specs.Prelude.{◌≡◌, ◌≤◌, ◌<◌, ◌^◌, true, length};
ghost use Rattle.std.specs.Option.{ForSome};
ghost use Rattle.sws_site.specs.HeaderFields.{header_limit};
ghost use Rattle.sws_site.specs.OwnTypes.{are_short_types};
ghost use Rattle.sws_site.specs.OwnAges.{are_short_ages};

use crate::age_faults::AgeFault;
use crate::header_faults::HeaderFault;
use crate::header_lines::HeaderLines;
use crate::own_ages::OwnAges;
use crate::own_types::OwnTypes;
use crate::type_faults::TypeFault;
use std::alloc::{AllocError, Global};

/// What the owner of a site adds to its responses, and to the media types that it knows.
#[derive(Drop)]
pub struct Additions {
    /// The lines that stand in each head behind all others.
    pub headers: HeaderLines,
    /// The media types that go before those that the site knows.
    pub types: OwnTypes,
    /// For how many seconds a response with a file, or with a part of one, may be kept, and so may
    /// one that says that the file was not modified, by the end of the file's name, of which the
    /// longest decides (RFC 9111, section 5.2.2.1).
    pub ages: OwnAges,
    /// For how many seconds so where the name has none of these ends.
    pub max_age: Option<u32>,
    pub ghost short_headers: { length headers ≤ header_limit },
    pub ghost short_types: { are_short_types types ≡ true },
    pub ghost short_ages: { are_short_ages ages ≡ true },
    pub ghost short_age: { ForSome max_age (λ seconds. seconds < 2 ^ 32) },
}

impl Additions {
    ghost use Rattle.std.specs.Prelude.{◌++◌, ◌∷◌, [], Some, None, IfOk, IfErr, OnOk, OnErr};
    ghost use Rattle.sws_site.specs.HeaderFields.{header_fault, header_text, IsHeaderFault};
    ghost use Rattle.sws_site.specs.Options.{nothing_added};
    ghost use Rattle.sws_site.specs.OwnTypes.{type_fault, IsTypeFault};
    ghost use Rattle.sws_site.specs.OwnAges.{age_fault, IsAgeFault};

    /// Nothing.
    pub fn none(alloc: Global) -> Additions
        ensures { result ≡ nothing_added }
    {
        Additions {
            headers: HeaderLines::none(alloc),
            types: OwnTypes::none(alloc),
            ages: OwnAges::none(alloc),
            max_age: None,
        }
    }

    /// Adds a line to each head, behind all others: the name, a colon, a space and the value.
    ///
    /// # Errors
    ///
    /// The first cause that holds, in the order `BadName`, `BadValue`, `SentAlready`, `TooLong`; or
    /// `Memory`, where an allocation was refused. Then nothing is added.
    pub fn add_header(
        &mut self,
        alloc: Global,
        name: &[u8],
        value: &[u8],
    ) -> Result<(), HeaderFault>
        ensures added { OnOk result
            (self.new.headers ≡ self.old.headers ++ header_text name.now value.now) }
        ensures sound { OnOk result (header_fault self.old.headers name.now value.now ≡ None) }
        ensures kept { OnErr result (self.new.headers ≡ self.old.headers) }
        ensures cause { IfErr result
            (IsHeaderFault (header_fault self.old.headers name.now value.now)) }
        ensures types { self.new.types ≡ self.old.types }
        ensures ages { self.new.ages ≡ self.old.ages }
        ensures max_age { self.new.max_age ≡ self.old.max_age }
    {
        self.headers.add(alloc, name, value)
    }

    /// Adds the media type of an extension, which goes before those that the site knows. Of two for
    /// one extension the first holds.
    ///
    /// # Errors
    ///
    /// The first cause that holds, in the order `BadExtension`, `BadType`; or `Memory`, where an
    /// allocation was refused. Then nothing is added.
    pub fn add_type(
        &mut self,
        alloc: Global,
        extension: &[u8],
        media_type: &[u8],
    ) -> Result<(), TypeFault>
        ensures added { OnOk result
            (self.new.types ≡ self.old.types ++ (extension.now, media_type.now) ∷ []) }
        ensures sound { OnOk result (type_fault extension.now media_type.now ≡ None) }
        ensures kept { OnErr result (self.new.types ≡ self.old.types) }
        ensures cause { IfErr result (IsTypeFault (type_fault extension.now media_type.now)) }
        ensures headers { self.new.headers ≡ self.old.headers }
        ensures ages { self.new.ages ≡ self.old.ages }
        ensures max_age { self.new.max_age ≡ self.old.max_age }
    {
        self.types.add(alloc, extension, media_type)
    }

    /// Lets files be kept for so many seconds whose names have this end, and no longer end that is
    /// given.
    ///
    /// # Errors
    ///
    /// The first cause that holds, in the order `BadEnd`, `GivenTwice`, `TooMany`; or `Memory`,
    /// where an allocation was refused. Then nothing is added.
    pub fn keep_by_end(&mut self, alloc: Global, end: &[u8], seconds: u32) -> Result<(), AgeFault>
        ensures added { OnOk result (self.new.ages ≡ self.old.ages ++ (end.now, seconds) ∷ []) }
        ensures sound { OnOk result (age_fault self.old.ages end.now ≡ None) }
        ensures kept { OnErr result (self.new.ages ≡ self.old.ages) }
        ensures cause { IfErr result (IsAgeFault (age_fault self.old.ages end.now)) }
        ensures headers { self.new.headers ≡ self.old.headers }
        ensures types { self.new.types ≡ self.old.types }
        ensures max_age { self.new.max_age ≡ self.old.max_age }
    {
        self.ages.add(alloc, end, seconds)
    }

    /// Lets all other files be kept for so many seconds.
    pub fn keep_for(&mut self, seconds: u32)
        ensures max_age { self.new.max_age ≡ Some seconds }
        ensures headers { self.new.headers ≡ self.old.headers }
        ensures types { self.new.types ≡ self.old.types }
        ensures ages { self.new.ages ≡ self.old.ages }
    {
        self.max_age = Some(seconds);
    }

    /// The same once more.
    pub fn copy(&self, alloc: Global) -> Result<Additions, AllocError>
        ensures { IfOk result (λ copied. copied ≡ self.now) }
    {
        Ok(Additions {
            headers: self.headers.copy(alloc)?,
            types: self.types.copy(alloc)?,
            ages: self.ages.copy(alloc)?,
            max_age: self.max_age,
        })
    }
}
