//! A whole site: loading it, looking files up by name, and its responses that refuse.
ghost use Rattle.std.specs.Prelude.{◌≡◌, ◌<◌, ◌≤◌, length, slice_get, option_map, Err, IfOk, IfSome, IsTrue, Some, None};
ghost use Rattle.sws_link.specs.Counts.{HasCause};
ghost use Rattle.httpdate.specs.declared.date.HttpDate.{HttpDate as Date};
ghost use Rattle.sws_site.specs.Fixed.{is_fixed, not_found_page, refusal_head, refusal_body, IsFixed, IsFixedHead, IsFixedBody};
ghost use Rattle.sws_site.specs.Limits.{IsWithinLimits, IsWithinOptions};
ghost use Rattle.sws_site.specs.Options.{plain_options};
ghost use Rattle.sws_site.specs.Site.{found_in, last_second, IsDateAt};
ghost use Rattle.sws_site.specs.Loading.{IsInitialFolder, LoadsSite, IsSameFolder};
ghost use Rattle.sws_site.specs.Stored.{FindsPlaces, file_of, files_of, AllHaveHeads};

use crate::built_responses::BuiltResponse;
use crate::loading::read_files;
use crate::options::SiteOptions;
use crate::pages::Page;
use crate::refusals::Refusals;
use crate::site_faults::SiteFault;
use crate::statuses::Status;
use crate::stored::StoredFile;
use httpdate::HttpDate;
use std::alloc::{AllocError, Global};
use std::collections::BTreeMap;
use std::marker::Model;
use sws_link::Folder;

/// The files of a folder as they were when it was loaded, and when they were last
/// modified, if that is known.
#[derive(Drop)]
pub struct Site {
    files: Vec<StoredFile>,
    /// The place of the first file of each name.
    places: BTreeMap<Vec<u8>, usize>,
    date: Option<HttpDate>,
    options: SiteOptions,
    not_modified: BuiltResponse,
    refusals: Refusals,
}

impl Model for Site {
    ghost use Rattle.sws_site.specs.Site.{SiteState};

    ghost Value = { SiteState };

    ghost use Rattle.sws_site.specs.StoredSites.{state_of, IsStored};

    ghost view = { state_of };

    ghost invariant = { IsStored };
}

/// The date so many seconds after the beginning of 1970.
fn http_date(date: Option<u64>) -> Option<HttpDate>
    requires { IfSome date (λ secs. secs ≤ last_second) }
    ensures { IsDateAt date result }
{
    let secs = date?;
    match HttpDate::from_unix_secs(secs) {
        Ok(date) => Some(date),
        Err(_) => unreachable!(),
    }
}

/// The place of the first file of each name: the last files are put first, and an earlier one takes
/// the place of a later one.
fn find_places(alloc: Global, files: &[StoredFile]) -> Result<BTreeMap<Vec<u8>, usize>, AllocError>
    ensures { IfOk result (FindsPlaces files.now) }
{
    let mut places = BTreeMap::new(alloc);
    let mut start = files.len();
    'files: while start > 0 {
        start -= 1;
        let name = Vec::from_slice(alloc, &files[start].name)?;
        places.insert(name, start)?;
    }
    Ok(places)
}

/// The page of a site with these options for names that no file has, if it has one.
fn not_found_page<'f>(
    options: &SiteOptions,
    files: &'f [StoredFile],
    places: &BTreeMap<Vec<u8>, usize>,
) -> Option<&'f StoredFile>
    requires { FindsPlaces files.now places.now }
    ensures { option_map (λ file. file_of file.now) result
        ≡ not_found_page options.now (files_of files.now) }
{
    if !options.sends_not_found_page {
        return None;
    }
    let name: &[u8] = b"404.html";
    match places.get(name) {
        Some(place) => Some(&files[*place]),
        None => None,
    }
}

impl Site {
    /// Loads all files of an open folder, of which none was given yet, as a plain site.
    ///
    /// `date` is when the files were last modified, in seconds after the beginning of
    /// 1970, if that is to be told.
    ///
    /// # Errors
    ///
    /// The first file that meets a limit decides, and of its limits the first in the order
    /// `TooManyFiles`, `LongName`, `TooManyBytes`. `Fault` comes only where the folder failed in
    /// this call, and `Memory` where an allocation was refused.
    pub fn load<F: Folder>(
        alloc: Global,
        folder: &mut F,
        date: Option<u64>,
    ) -> Result<Site, SiteFault>
        requires initial { IsInitialFolder (F.tells folder.old) }
        requires date { IfSome date (λ secs. secs ≤ last_second) }
        ensures loads { LoadsSite plain_options (F.tells folder.old) result }
        ensures date { IfOk result (λ site. IsDateAt date site.date) }
        ensures options { IfOk result (λ site. site.options ≡ plain_options) }
        ensures within { IfOk result (λ site. IsWithinOptions plain_options site.files) }
        ensures same { IsSameFolder (F.tells folder.old) (F.tells folder.new) }
        ensures cause { HasCause (F.faults folder.old) (F.faults folder.new) (result
            ≡ Err SiteFault.Fault) }
    {
        Site::load_with(alloc, folder, date, SiteOptions::plain(alloc))
    }

    /// [`Site::load`] of a site that does more than a plain one, or holds more or less; the limits
    /// are those of the options.
    ///
    /// # Errors
    ///
    /// As those of [`Site::load`].
    pub fn load_with<F: Folder>(
        alloc: Global,
        folder: &mut F,
        date: Option<u64>,
        options: SiteOptions,
    ) -> Result<Site, SiteFault>
        requires initial { IsInitialFolder (F.tells folder.old) }
        requires date { IfSome date (λ secs. secs ≤ last_second) }
        ensures loads { LoadsSite options (F.tells folder.old) result }
        ensures date { IfOk result (λ site. IsDateAt date site.date) }
        ensures options { IfOk result (λ site. site.options ≡ options) }
        ensures within { IfOk result (λ site. IsWithinOptions options site.files) }
        ensures same { IsSameFolder (F.tells folder.old) (F.tells folder.new) }
        ensures cause { HasCause (F.faults folder.old) (F.faults folder.new) (result
            ≡ Err SiteFault.Fault) }
    {
        let date = http_date(date);
        let files = read_files(alloc, folder, &options, &date)?;
        let site = Site::new(alloc, date, options, files)?;
        Ok(site)
    }

    /// The site of these files.
    fn new(
        alloc: Global,
        date: Option<HttpDate>,
        options: SiteOptions,
        files: Vec<StoredFile>,
    ) -> Result<Site, AllocError>
        requires limits { IsWithinOptions options (files_of files.items) }
        requires heads { AllHaveHeads options date files.items }
        ensures files { IfOk result (λ site. site.files ≡ files_of files.items) }
        ensures date { IfOk result (λ site. site.date ≡ date) }
        ensures options { IfOk result (λ site. site.options ≡ options) }
    {
        let places = find_places(alloc, &files)?;
        let not_modified = BuiltResponse::new(
            alloc,
            &options,
            Status::NotModified,
            options.added.max_age,
            &date,
            b"",
            Vec::new(alloc),
        )?;
        let refusals = Refusals::new(alloc, &options, not_found_page(&options, &files, &places))?;
        Ok(Site {
            files,
            places,
            date,
            options,
            not_modified,
            refusals,
        })
    }

    /// The first file of the name, in the folder's order. It takes time in the
    /// logarithm of the number of files.
    pub fn lookup(&self, name: &[u8]) -> Option<Page<'_>>
        ensures { result ≡ found_in self.now name.now }
    {
        match self.places.get(name) {
            Some(place) => Some(Page {
                file: &self.files[*place],
                not_modified: &self.not_modified,
                date: self.date,
                options: &self.options,
            }),
            None => None,
        }
    }

    /// The head and the body of the response of this status that is the same whatever is asked for:
    /// the body is a line that tells the status, or, of 404, the page of the site for that.
    ///
    /// `status` is one whose content tells the status, and that is about no part of a file and no
    /// other place: all that refuse, but for 416.
    pub fn refusal(&self, status: Status, closes: bool) -> (&[u8], &[u8])
        requires { IsTrue (is_fixed status) }
        ensures head { result.0.now ≡ refusal_head self.now status closes }
        ensures body { result.1.now ≡ refusal_body self.now status }
    {
        let response = self.refusals.of(status);
        (response.head(closes), &response.body)
    }

    /// [`Site::refusal`] by the code of the status.
    ///
    /// `code` is 400, 404, 405, 431 or 501.
    pub fn fixed(&self, code: u16, closes: bool) -> (&[u8], &[u8])
        requires { IsFixed code }
        ensures head { IsFixedHead self.now code closes result.0.now }
        ensures body { IsFixedBody self.now code result.1.now }
    {
        match code {
            400 => self.refusal(Status::BadRequest, closes),
            404 => self.refusal(Status::NotFound, closes),
            405 => self.refusal(Status::MethodNotAllowed, closes),
            431 => self.refusal(Status::HeaderFieldsTooLarge, closes),
            _ => self.refusal(Status::NotImplemented, closes),
        }
    }

    /// How many files the site has.
    pub fn files(&self) -> usize
        ensures { result ≡ length self.now.files }
    {
        self.files.len()
    }

    /// The name of a file, of at most 1,024 bytes. Files are counted from 0, in the folder's order.
    pub fn name_at(&self, i: usize) -> &[u8]
        requires { i < length self.now.files }
        ensures { option_map (λ file. file.0) (slice_get self.now.files i) ≡ Some result.now }
    {
        &self.files[i].name
    }

    /// One file. Files are counted from 0, in the folder's order; of those of one name
    /// [`Site::lookup`] finds the first alone.
    pub fn page_at(&self, i: usize) -> Page<'_>
        requires { i < length self.now.files }
        ensures file { slice_get self.now.files i ≡ Some result.file }
        ensures date { result.date ≡ self.now.date }
        ensures options { result.options ≡ self.now.options }
    {
        Page {
            file: &self.files[i],
            not_modified: &self.not_modified,
            date: self.date,
            options: &self.options,
        }
    }

    /// When the files were last modified, in seconds after the beginning of 1970, if that is known.
    pub fn date(&self) -> Option<u64>
        ensures { IsDateAt result self.now.date }
    {
        match &self.date {
            Some(date) => Some(date.unix_secs()),
            None => None,
        }
    }

    /// When the files were last modified, as a date, if that is known.
    pub fn http_date(&self) -> &Option<HttpDate>
        ensures { result.now ≡ self.now.date }
    {
        &self.date
    }

    /// What the site does beyond sending its files, and how much it holds.
    pub fn options(&self) -> &SiteOptions
        ensures { result.now ≡ self.now.options }
    {
        &self.options
    }

    /// A law, which does nothing when it runs: every site is within the limits of any site, whatever
    /// its options.
    pub fn limits(&self)
        ensures { IsWithinLimits self.now.files }
    {
        let _ = &self.files;
    }
}
