//! More media types than a plain site knows.
ghost use Rattle.std.specs.Prelude.{◌≡◌, map};
ghost use Rattle.std.specs.Str.{str_eq_ignore_ascii_case};
ghost use Rattle.sws_site.specs.ContentTypes.{text_types, data_types, image_types, audio_types, video_types, archive_types, document_types, program_types, type_or, more_type_or};

use crate::content_types::is_same_extension;

/// The types of texts.
static TEXT_TYPES: [(&[u8], &[u8]); 11] = [
    (b"shtml", b"text/html"),
    (b"mjs", b"text/javascript"),
    (b"md", b"text/markdown"),
    (b"csv", b"text/csv"),
    (b"log", b"text/plain"),
    (b"ics", b"text/calendar"),
    (b"vtt", b"text/vtt"),
    (b"mml", b"text/mathml"),
    (b"htc", b"text/x-component"),
    (b"jad", b"text/vnd.sun.j2me.app-descriptor"),
    (b"wml", b"text/vnd.wap.wml"),
];

/// The types of data.
static DATA_TYPES: [(&[u8], &[u8]); 11] = [
    (b"xhtml", b"application/xhtml+xml"),
    (b"map", b"application/json"),
    (b"jsonld", b"application/ld+json"),
    (b"webmanifest", b"application/manifest+json"),
    (b"yaml", b"application/yaml"),
    (b"yml", b"application/yaml"),
    (b"toml", b"application/toml"),
    (b"atom", b"application/atom+xml"),
    (b"rss", b"application/rss+xml"),
    (b"xspf", b"application/xspf+xml"),
    (b"sql", b"application/sql"),
];

/// The types of images and fonts.
static IMAGE_TYPES: [(&[u8], &[u8]); 14] = [
    (b"svgz", b"image/svg+xml"),
    (b"apng", b"image/apng"),
    (b"avif", b"image/avif"),
    (b"bmp", b"image/bmp"),
    (b"jng", b"image/x-jng"),
    (b"jxl", b"image/jxl"),
    (b"tif", b"image/tiff"),
    (b"tiff", b"image/tiff"),
    (b"wbmp", b"image/vnd.wap.wbmp"),
    (b"webp", b"image/webp"),
    (b"otf", b"font/otf"),
    (b"ttf", b"font/ttf"),
    (b"woff", b"font/woff"),
    (b"eot", b"application/vnd.ms-fontobject"),
];

/// The types of sounds.
static AUDIO_TYPES: [(&[u8], &[u8]); 14] = [
    (b"aac", b"audio/aac"),
    (b"flac", b"audio/flac"),
    (b"kar", b"audio/midi"),
    (b"mid", b"audio/midi"),
    (b"midi", b"audio/midi"),
    (b"mp3", b"audio/mpeg"),
    (b"m4a", b"audio/x-m4a"),
    (b"oga", b"audio/ogg"),
    (b"ogg", b"audio/ogg"),
    (b"opus", b"audio/ogg"),
    (b"ra", b"audio/x-realaudio"),
    (b"wav", b"audio/wav"),
    (b"weba", b"audio/webm"),
    (b"m3u8", b"application/vnd.apple.mpegurl"),
];

/// The types of films.
static VIDEO_TYPES: [(&[u8], &[u8]); 17] = [
    (b"3gp", b"video/3gpp"),
    (b"3gpp", b"video/3gpp"),
    (b"asf", b"video/x-ms-asf"),
    (b"asx", b"video/x-ms-asf"),
    (b"avi", b"video/x-msvideo"),
    (b"flv", b"video/x-flv"),
    (b"m4v", b"video/x-m4v"),
    (b"mkv", b"video/matroska"),
    (b"mng", b"video/x-mng"),
    (b"mov", b"video/quicktime"),
    (b"mp4", b"video/mp4"),
    (b"mpeg", b"video/mpeg"),
    (b"mpg", b"video/mpeg"),
    (b"ogv", b"video/ogg"),
    (b"ts", b"video/mp2t"),
    (b"webm", b"video/webm"),
    (b"wmv", b"video/x-ms-wmv"),
];

/// The types of archives.
static ARCHIVE_TYPES: [(&[u8], &[u8]); 15] = [
    (b"7z", b"application/x-7z-compressed"),
    (b"bz2", b"application/x-bzip2"),
    (b"gz", b"application/gzip"),
    (b"rar", b"application/x-rar-compressed"),
    (b"tar", b"application/x-tar"),
    (b"tgz", b"application/gzip"),
    (b"xz", b"application/x-xz"),
    (b"zip", b"application/zip"),
    (b"zst", b"application/zstd"),
    (b"ear", b"application/java-archive"),
    (b"jar", b"application/java-archive"),
    (b"war", b"application/java-archive"),
    (b"hqx", b"application/mac-binhex40"),
    (b"sea", b"application/x-sea"),
    (b"sit", b"application/x-stuffit"),
];

/// The types of documents.
static DOCUMENT_TYPES: [(&[u8], &[u8]); 18] = [
    (b"doc", b"application/msword"),
    (b"xls", b"application/vnd.ms-excel"),
    (b"ppt", b"application/vnd.ms-powerpoint"),
    (
        b"docx",
        b"application/vnd.openxmlformats-officedocument.wordprocessingml.document",
    ),
    (
        b"xlsx",
        b"application/vnd.openxmlformats-officedocument.spreadsheetml.sheet",
    ),
    (
        b"pptx",
        b"application/vnd.openxmlformats-officedocument.presentationml.presentation",
    ),
    (b"odt", b"application/vnd.oasis.opendocument.text"),
    (b"ods", b"application/vnd.oasis.opendocument.spreadsheet"),
    (b"odp", b"application/vnd.oasis.opendocument.presentation"),
    (b"odg", b"application/vnd.oasis.opendocument.graphics"),
    (b"kml", b"application/vnd.google-earth.kml+xml"),
    (b"rtf", b"application/rtf"),
    (b"epub", b"application/epub+zip"),
    (b"ai", b"application/postscript"),
    (b"eps", b"application/postscript"),
    (b"ps", b"application/postscript"),
    (b"kmz", b"application/vnd.google-earth.kmz"),
    (b"wmlc", b"application/vnd.wap.wmlc"),
];

/// The types of programs and keys.
static PROGRAM_TYPES: [(&[u8], &[u8]); 16] = [
    (b"cco", b"application/x-cocoa"),
    (b"jardiff", b"application/x-java-archive-diff"),
    (b"jnlp", b"application/x-java-jnlp-file"),
    (b"run", b"application/x-makeself"),
    (b"swf", b"application/x-shockwave-flash"),
    (b"xpi", b"application/x-xpinstall"),
    (b"rpm", b"application/x-rpm"),
    (b"pl", b"application/x-perl"),
    (b"pm", b"application/x-perl"),
    (b"tcl", b"application/x-tcl"),
    (b"tk", b"application/x-tcl"),
    (b"crt", b"application/x-x509-ca-cert"),
    (b"der", b"application/x-x509-ca-cert"),
    (b"pem", b"application/x-x509-ca-cert"),
    (b"pdb", b"application/x-pilot"),
    (b"prc", b"application/x-pilot"),
];

/// The media type in the first row of this extension, or else the other type.
fn type_or<'t>(rows: &[(&'t [u8], &'t [u8])], otherwise: &'t [u8], extension: &[u8]) -> &'t [u8]
    ensures { result.now
        ≡ type_or (map (λ row. (row.0.now, row.1.now)) rows.now) otherwise.now extension.now }
{
    for (known, media_type) in rows {
        if is_same_extension(extension, known) {
            return media_type;
        }
    }
    otherwise
}

/// The type of texts of this extension, or else the other type.
fn text_type(extension: &[u8], otherwise: &'static [u8]) -> &'static [u8]
    ensures { result.now ≡ type_or text_types otherwise.now extension.now }
{
    type_or(&TEXT_TYPES, otherwise, extension)
}

/// The type of data of this extension, or else the other type.
fn data_type(extension: &[u8], otherwise: &'static [u8]) -> &'static [u8]
    ensures { result.now ≡ type_or data_types otherwise.now extension.now }
{
    type_or(&DATA_TYPES, otherwise, extension)
}

/// The type of images and fonts of this extension, or else the other type.
fn image_type(extension: &[u8], otherwise: &'static [u8]) -> &'static [u8]
    ensures { result.now ≡ type_or image_types otherwise.now extension.now }
{
    type_or(&IMAGE_TYPES, otherwise, extension)
}

/// The type of sounds of this extension, or else the other type.
fn audio_type(extension: &[u8], otherwise: &'static [u8]) -> &'static [u8]
    ensures { result.now ≡ type_or audio_types otherwise.now extension.now }
{
    type_or(&AUDIO_TYPES, otherwise, extension)
}

/// The type of films of this extension, or else the other type.
fn video_type(extension: &[u8], otherwise: &'static [u8]) -> &'static [u8]
    ensures { result.now ≡ type_or video_types otherwise.now extension.now }
{
    type_or(&VIDEO_TYPES, otherwise, extension)
}

/// The type of archives of this extension, or else the other type.
fn archive_type(extension: &[u8], otherwise: &'static [u8]) -> &'static [u8]
    ensures { result.now ≡ type_or archive_types otherwise.now extension.now }
{
    type_or(&ARCHIVE_TYPES, otherwise, extension)
}

/// The type of documents of this extension, or else the other type.
fn document_type(extension: &[u8], otherwise: &'static [u8]) -> &'static [u8]
    ensures { result.now ≡ type_or document_types otherwise.now extension.now }
{
    type_or(&DOCUMENT_TYPES, otherwise, extension)
}

/// The type of programs and keys of this extension, or else the other type.
fn program_type(extension: &[u8], otherwise: &'static [u8]) -> &'static [u8]
    ensures { result.now ≡ type_or program_types otherwise.now extension.now }
{
    type_or(&PROGRAM_TYPES, otherwise, extension)
}

/// The media type of an extension among all of these, or else the other type.
pub(crate) fn more_type_or(otherwise: &'static [u8], extension: &[u8]) -> &'static [u8]
    ensures { result.now ≡ more_type_or otherwise.now extension.now }
{
    let media_type = otherwise;
    let media_type = program_type(extension, media_type);
    let media_type = document_type(extension, media_type);
    let media_type = archive_type(extension, media_type);
    let media_type = video_type(extension, media_type);
    let media_type = audio_type(extension, media_type);
    let media_type = image_type(extension, media_type);
    let media_type = data_type(extension, media_type);
    text_type(extension, media_type)
}
