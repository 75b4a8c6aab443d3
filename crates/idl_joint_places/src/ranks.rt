//! Places as numbers in the order of places.
ghost use Rattle.std.specs.Prelude.{◌≡◌, ◌/◌, ◌%◌};
ghost use Rattle.idl_joint_places.specs.Ranks.{place_ranked, placed};
ghost use Rattle.idl_trees.specs.Names.{place_of};

use idl_trees::Place;

/// How many bytes a file has no more than.
const BYTES: u64 = 4294967296;

pub(crate) fn rank_of(place: Place) -> u64
    ensures { place_ranked result ≡ place_of place }
{
    rank_at(place.file, place.byte)
}

fn rank_at(file: u32, byte: u32) -> u64
    ensures { place_ranked result ≡ placed file byte }
{
    (file as u64) * BYTES + (byte as u64)
}

pub(crate) fn place_ranked(rank: u64) -> Place
    ensures { place_of result ≡ place_ranked rank }
{
    Place {
        file: file_of(rank),
        byte: byte_of(rank),
    }
}

fn file_of(rank: u64) -> u32
    ensures { result ≡ rank / 4294967296 }
{
    (rank / BYTES) as u32
}

fn byte_of(rank: u64) -> u32
    ensures { result ≡ rank % 4294967296 }
{
    (rank % BYTES) as u32
}
