//! Laws of the number of nodes that are inserted, as theorems of functions that do nothing.
ghost use Rattle.plan_sizes.specs.Counted.{GroupsInsertFew, PlansInsertFew, SlicesInsertOne, StepsInsertFew};

/// A group-by inserts at most 64 nodes for each occurrence in its keys that isn't a column, and 64 more; a slice inserts one.
pub fn groups_insert_few()
    ensures groups { GroupsInsertFew }
    ensures slices { SlicesInsertOne }
{}

/// Each step inserts at most 64 nodes for each occurrence in its own expressions that isn't a column, and 64 more.
pub fn steps_insert_few()
    ensures { StepsInsertFew }
{}

/// A plan inserts at most 64 nodes for each of its nodes and for each occurrence in their expressions that isn't a column,
/// and 64 more. A node that is read twice counts for each of its readers; below a cache id that has a stream nothing is
/// inserted.
pub fn plans_insert_few()
    ensures { PlansInsertFew }
{}
