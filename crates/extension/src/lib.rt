// The headers between an IPv6 packet's own header and its upper layer (RFC 8200 section 4), and the walk over them. Each header that is
// walked over takes octets, so the walk ends; it answers whatever octets it is lent.
#![tactic(auto)]

ghost use Rattle.std.specs.Prelude.{◌≡◌, ◌<◌, length};
ghost use Rattle.extension.specs.Extension.{is_walked, extension_at, fragment_at, header_at, upper_layer};

use octets::{number_at, octet_at};

// How far a walk has come: the number of the next header, where that begins, whether a fragment header was walked over, and the octets 2
// and 3 of that one (0 where there was none).
#[derive(Clone, Copy)]
pub struct Progress {
    pub kind: u8,
    pub at: usize,
    pub fragmented: bool,
    pub field: u64,
}

// Whether headers of this number are walked over, whichever stood before: Hop-by-Hop Options, Routing and Destination Options.
fn is_walked(kind: u8) -> bool
    ensures { result ≡ is_walked kind }
{
    ((kind == 0) | (kind == 43)) | (kind == 60)
}

// Walks over a header 0, 43 or 60; is lost behind a fragment offset that is not 0, and where the octets end before the header does.
fn extension_at(octets: &[u8], progress: Progress) -> Result<Progress, Progress>
    ensures { result ≡ extension_at octets.now progress }
{
    let at = progress.at;
    if progress.field >> 3 != 0 {
        return Err(progress);
    }
    if octets.len() <= at {
        return Err(progress);
    }
    let units = octet_at(octets, at + 1) as usize + 1;
    let size = units * 8;
    if octets.len() - at < size {
        return Err(progress);
    }
    Ok(Progress {
        kind: octets[at],
        at: at + size,
        fragmented: progress.fragmented,
        field: progress.field,
    })
}

// Walks over a fragment header; is lost where the octets end before it does.
fn fragment_at(octets: &[u8], progress: Progress) -> Result<Progress, Progress>
    ensures { result ≡ fragment_at octets.now progress }
{
    let at = progress.at;
    if octets.len() <= at {
        return Err(progress);
    }
    if octets.len() - at < 8 {
        return Err(progress);
    }
    Ok(Progress {
        kind: octets[at],
        at: at + 8,
        fragmented: true,
        field: number_at(2, octets, at + 2),
    })
}

// Walks over what stands at a place: a header, or none where that is the upper layer; is lost where the header is.
fn header_at(octets: &[u8], progress: Progress) -> Result<Option<Progress>, Progress>
    ensures { result ≡ header_at octets.now progress }
{
    if is_walked(progress.kind) {
        return extension_at(octets, progress).map(Some);
    }
    if (progress.kind == 44) & !progress.fragmented {
        return fragment_at(octets, progress).map(Some);
    }
    Ok(None)
}

// Walks from an IPv6 packet's own header to its upper layer; the error of a walk that is lost is how far it had come.
pub fn upper_layer(octets: &[u8]) -> Result<Progress, Progress>
    ensures { result ≡ upper_layer octets.now }
{
    let mut progress = Progress {
        kind: octet_at(octets, 6),
        at: 40,
        fragmented: false,
        field: 0,
    };
    while let Some(behind) = header_at(octets, progress)? {
        progress = behind;
    }
    Ok(progress)
}
