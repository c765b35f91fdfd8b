// Whether a table record is accepted: codes 3, 4, 6 to 12, 28 and 32, by the definition `table_refusal` of `rules`. Here are 3 and 4, and
// the sizes that go by the version; the crate `network` has 6 to 9, and `placing` 10 to 12, 28 and 32.
#![tactic(auto)]

ghost use Rattle.std.specs.Prelude.{◌≡◌};
ghost use Rattle.rules.specs.Rows.{first};
ghost use Rattle.rules.specs.Track.{track_in, way_in};
ghost use Rattle.rules.specs.Network.{known_version, has_ways, some_one_way, ways_fault, head_rows};
ghost use Rattle.rules.specs.Placing.{without_place, parts_refusal, table_refusal};
ghost use Rattle.rules.specs.File.{segment_size};
ghost use Rattle.rules.specs.Errors.{refused};

use columns::Columns;
use rules::{FileError, Table};

// The versions that are read.
#[tactic(auto, unfolding(rules::specs::Network::known_version))]
fn known(version: u16) -> bool
    ensures { result ≡ known_version version }
{
    matches!(version, 1 | 2)
}

// The segments of this version have a way.
#[tactic(auto, unfolding(rules::specs::Network::has_ways))]
pub fn has_ways(version: u16) -> bool
    ensures { result ≡ has_ways version }
{
    version >= 2
}

// The bytes of a segment record of this version.
#[tactic(auto, unfolding(rules::specs::File::segment_size))]
pub fn segment_size(version: u16) -> u8
    ensures { result ≡ segment_size version }
{
    if has_ways(version) { 3 } else { 2 }
}

// Some of n segments runs one way only.
fn some_one_way(n: u8, ways: &[u8; 256]) -> bool
    ensures { result ≡ some_one_way n (way_in ways.now) }
{
    ways[1..=usize::from(n)].iter().any(|way| *way != 0)
}

// Code 3 of a table record: some of n segments has a way that the version cannot hold.
#[tactic(auto, unfolding(rules::specs::Network::ways_fault))]
fn some_way_unheld(version: u16, n: u8, ways: &[u8; 256]) -> bool
    ensures { result ≡ ways_fault version n (way_in ways.now) }
{
    !has_ways(version) && some_one_way(n, ways)
}

// Codes 3 and 4: the version, and the numbers of segments, boxes and trains; as numbers, since a file's head is no table yet.
#[tactic(auto, unfolding(rules::specs::Network::head_rows, rules::specs::Network::limits_fault, rules::specs::Rows::first, rules::specs::Rows::outside))]
pub fn check_head(version: u16, n: u8, m: u8, k: u8) -> Result<(), FileError>
    ensures { refused result ≡ without_place (first (head_rows version n m k)) }
{
    if !known(version) {
        return Err(FileError::UnknownVersion);
    }
    if !(1..=96).contains(&n) || !(2..=96).contains(&m) || k > 16 {
        return Err(FileError::BadCounts);
    }
    Ok(())
}

// Whether a table record is accepted, by its parts and its columns: 3, 4, 6 to 10, 11 or 28, 12 and 32, in this order.
#[tactic(auto, using(rules::proofs::Coded::file_coded, crate::proofs::Codes::refusals))]
pub fn check_parts(table: &Table, columns: &Columns) -> Result<(), FileError>
    ensures { let t = table.now in
        let track = track_in columns.now.a columns.now.b in
        let way = way_in columns.now.ways in
        refused result ≡ parts_refusal t.version t.n t.m t.k track way t.boxes t.trains t.routes }
{
    if some_way_unheld(table.version, table.n, &columns.ways) {
        return Err(FileError::UnknownVersion);
    }
    check_head(table.version, table.n, table.m, table.k)?;
    network::check_network(table, columns)?;
    placing::check_placing(table, columns)
}

// Whether a table record is accepted.
#[tactic(auto, using(crate::proofs::Codes::parts_answer))]
pub fn check_table(table: &Table) -> Result<(), FileError>
    ensures { refused result ≡ table_refusal table.now }
{
    check_parts(table, &Columns::of(table))
}
