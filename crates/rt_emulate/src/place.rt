// Where the guests of connections are.
ghost use Rattle.std.specs.Prelude.{◌≡◌, ◌<◌, ◌==◌, ℕ, if◌then◌else◌, Some, OnOk};
ghost use Rattle.rt_emulate.specs.inside.Places.{place_of};

use std::alloc::AllocError;

/// The place of each connection's guest, by the connection's number, from 1; none where there is none.
pub(crate) type Places = Vec<Option<usize>>;

/// The place of the connection's guest.
pub(crate) fn place_of(places: &Places, connection: u64) -> Option<usize>
    ensures { result ≡ place_of places.now.items connection }
{
    if connection == 0 {
        return None;
    }
    match places.get((connection - 1) as usize) {
        Some(place) => *place,
        None => None,
    }
}

/// From now on the connection's guest has that place.
pub(crate) fn set_place(
    places: &mut Places,
    connection: u64,
    place: usize,
) -> Result<(), AllocError>
    ensures placed { OnOk result (0 < connection → (n : ℕ) → place_of places.new.items n
        ≡ (if connection == n then Some place else place_of places.old.items n)) }
    ensures nobody { connection ≡ 0 → places.new ≡ places.old }
{
    if connection == 0 {
        return Ok(());
    }
    let index = (connection - 1) as usize;
    if index >= places.len() {
        places.resize(index + 1, None)?;
    }
    places[index] = Some(place);
    Ok(())
}
