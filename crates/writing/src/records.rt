// The parts of a table file, each written after those before it.
ghost use Rattle.std.specs.Prelude.{length};
ghost use Rattle.rules.specs.Rows.{join_of};
ghost use Rattle.rules.specs.File.{head_bytes, segment_bytes, box_bytes, train_bytes, encode};
ghost use Rattle.writing.specs.Written.{Bounded, HasRoom, Written};

use crate::pen::Pen;
use rules::Table;

// The head.
#[tactic(auto, using(crate::proofs::Laws::written_append), unfolding(rules::specs::File::head_bytes))]
fn put_head(table: &Table, pen: &mut Pen)
    requires { HasRoom pen.old (length (head_bytes table.now)) }
    ensures { Written pen.old (head_bytes table.now) pen.new }
{
    pen.put(b"NET");
    pen.put(&table.version.to_be_bytes());
    pen.put(&[table.n, table.m, table.k]);
}

// The segment records. Each kind of record asks for `Bounded`, which `write` has of `check_table`: the four take one table, once.
fn put_segments(table: &Table, pen: &mut Pen)
    requires bounded { Bounded table.now }
    requires room { HasRoom pen.old (length (join_of table.now.n (segment_bytes table.now))) }
    ensures { Written pen.old (join_of table.now.n (segment_bytes table.now)) pen.new }
{
    let size = usize::from(layout::segment_size(table.version));
    for s in &table.segments[..usize::from(table.n)] {
        pen.put(&[s.a, s.b, s.way][..size]);
    }
}

// The box records.
fn put_boxes(table: &Table, pen: &mut Pen)
    requires bounded { Bounded table.now }
    requires room { HasRoom pen.old (length (join_of table.now.m (box_bytes table.now))) }
    ensures { Written pen.old (join_of table.now.m (box_bytes table.now)) pen.new }
{
    for p in &table.boxes[..usize::from(table.m)] {
        pen.put(&[p.kind, p.stem, p.left, p.right, p.position]);
    }
}

// The train records, each with its route after it.
fn put_trains(table: &Table, pen: &mut Pen)
    requires bounded { Bounded table.now }
    requires room { HasRoom pen.old (length (join_of table.now.k (train_bytes table.now))) }
    ensures { Written pen.old (join_of table.now.k (train_bytes table.now)) pen.new }
{
    for (i, p) in table.trains[..usize::from(table.k)].iter().enumerate() {
        pen.put(&[p.direction, p.length]);
        pen.put(&table.routes[64 * i..][..usize::from(p.length)]);
    }
}

// The file.
#[tactic(auto, using(crate::proofs::Laws::encode_length, crate::proofs::Laws::written_file))]
pub(crate) fn put_file(table: &Table, pen: &mut Pen)
    requires bounded { Bounded table.now }
    requires room { HasRoom pen.old (length (encode table.now)) }
    ensures { Written pen.old (encode table.now) pen.new }
{
    put_head(table, pen);
    put_segments(table, pen);
    put_boxes(table, pen);
    put_trains(table, pen);
}
