// The walk over the records of a tree that the check passed: where each record begins, its kind, its k and its children by number.
//
// Its contracts cite `specs/Nodes.antt` and `specs/TreeRecords.antt`. The laws that crates above cite stand in `proofs/Laws.antt` (the tree
// that the check read is that of the records), `proofs/KindLaws.antt` and `proofs/HeadLaws.antt` (the fragment of a record by its kind) and `proofs/FoldLaws.antt`
// (what is computed over a tree, record by record).
#![tactic(auto)]

ghost use Rattle.std.specs.Prelude.{◌≡◌, ◌+◌, ◌≤◌, length};
ghost use Rattle.trees.specs.Reading.{max_records};
ghost use Rattle.walk.specs.TreeRecords.{Written, length_from, record_at};
ghost use Rattle.walk.specs.Nodes.{node_of, Placed, Scanned};

// A record: its kind, its k, and its n children, by their numbers; zeros follow them.
#[derive(Clone, Copy)]
pub struct Node {
    pub kind: u16,
    pub k: u16,
    pub n: usize,
    pub children: [u16; 16],
}

// Where the record that begins at `start` ends.
pub fn record_end(tree: &[u8], start: usize) -> usize
    ensures { result ≡ start + length_from tree.now start }
{
    match records::length_at(tree, start) {
        Some(len) => start + len,
        None => start,
    }
}

// The node of a record.
pub fn node_of(bytes: &[u8]) -> Node
    ensures { result ≡ node_of bytes.now }
{
    let parts = records::fragment_parts(bytes);
    let kind = records::kind_of(bytes);
    let children = parts.children;
    Node {
        kind,
        k: parts.k,
        n: records::arity(kind, parts.count),
        children,
    }
}

// The node of record i.
pub fn node_at(tree: &[u8], starts: &[u64], i: usize) -> Node
    requires { Placed tree.now starts.now i }
    ensures { result ≡ node_of (record_at tree.now i) }
{
    let start = starts[i] as usize;
    let end = record_end(tree, start);
    node_of(&tree[start..end])
}

// Stores where each record begins, and counts the records.
pub fn scan(tree: &[u8], work: &mut [u64]) -> usize
    requires { Written tree.now × (max_records ≤ length work.old) }
    ensures { Scanned tree.now work.old work.new result }
{
    let mut at = 0;
    let mut count = 0;
    // A `while`, since records are of unequal length.
    while at < tree.len() {
        work[count] = at as u64;
        at = record_end(tree, at);
        count += 1;
    }
    count
}
