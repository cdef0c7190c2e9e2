//! The places where the file of a name is looked for: the current folder, and then the folders of a path.
ghost use Rattle.std.specs.Prelude.{◌≡◌, ◌==◌, ◌++◌, map, IfOk, OnOk};
ghost use Rattle.std.specs.List.{list_any, slice_split};
ghost use Rattle.tx_io.specs.Places as spec;
ghost use Rattle.tx_io.specs.Places.{folders_of, places_of};

use std::alloc::{AllocError, Global};
use tx_bytes::Bytes;

fn is_dots(part: &[u8]) -> bool
    ensures { result ≡ spec.is_dots part.now }
{
    part == b".".as_slice() || part == b"..".as_slice()
}

fn has_dots(name: &[u8]) -> bool
    ensures { result ≡ list_any spec.is_dots (slice_split (λ byte. byte == 47) name.now) }
{
    name.split(|byte| *byte == b'/').any(|part| is_dots(part))
}

/// Whether a file of this name is looked for along a path.
fn goes_along(name: &[u8]) -> bool
    ensures { result ≡ spec.goes_along name.now }
{
    let is_absolute = !name.is_empty() && name[0] == b'/';
    !is_absolute && !has_dots(name)
}

fn folders(alloc: Global, path: &[u8]) -> Result<Vec<&[u8]>, AllocError>
    ensures { IfOk result (λ folders. map (λ folder. folder.now) folders.items ≡ folders_of path.now) }
{
    path.split(|byte| *byte == b':')
        .filter(|folder| !folder.is_empty())
        .collect(alloc)
}

fn place_in(alloc: Global, folder: &[u8], name: &[u8]) -> Result<Bytes, AllocError>
    ensures { IfOk result (λ place. place ≡ spec.place_in folder.now name.now) }
{
    let mut place = Bytes::from_slice(alloc, folder)?;
    place.push(b'/')?;
    place.append(name)?;
    Ok(place)
}

fn append_places(
    alloc: Global,
    places: &mut Vec<Bytes>,
    folders: &[&[u8]],
    name: &[u8],
) -> Result<(), AllocError>
    ensures { OnOk result (places.new.items ≡ places.old.items ++ map (λ folder. spec.place_in folder.now name.now) folders.now) }
{
    for folder in folders {
        places.push(place_in(alloc, folder, name)?)?;
    }
    Ok(())
}

/// The places of a name, in the order in which they are looked at. The path's folders stand between colons; an empty one is none.
pub(crate) fn places(alloc: Global, path: &[u8], name: &[u8]) -> Result<Vec<Bytes>, AllocError>
    ensures { IfOk result (λ places. places.items ≡ places_of path.now name.now) }
{
    let mut places = Vec::new(alloc);
    places.push(Bytes::from_slice(alloc, name)?)?;
    if goes_along(name) {
        let folders = folders(alloc, path)?;
        append_places(alloc, &mut places, folders.as_slice(), name)?;
    }
    Ok(places)
}
