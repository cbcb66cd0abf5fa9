// Plans that are sound, and plans that aren't.
use physical_scripts::building::built;
use physical_scripts::words::arena;
use plan_scripts::functions::TwoSame;
use ps_frame::expr::AExpr;
use pu_base::Arena;
use sound_plans::plans::check_plan;
use std::alloc::Global;
use std::test::Fail;

/// Whether a plan is sound, how many nodes there are, and how many inputs.
pub fn told(alloc: Global, nodes: &str, exprs: &Arena<AExpr>) -> Result<String, Fail> {
    let (phys, root) = built(alloc, nodes)?;
    let Ok(check) = check_plan(alloc, &phys, root, &TwoSame, exprs) else {
        return Err(Fail::from("no look at a plan"));
    };
    let mut text = String::new(alloc);
    let word = if check.is_sound { "yes" } else { "no" };
    write!(text, "{word} {} {}", check.nodes, check.inputs)?;
    Ok(text)
}

/// Expressions by their numbers: 3 and 10 are Boolean, 4, 5, 6, 7, 8, 11 and 12 aren't elementwise, and 2 and 12 read no column; there is no
/// column z.
pub const EXPRS: &str =
    "col a; col b; int 1; gt 0 2; sum 0; gt 0 4; reverse 1; len -; sum 1; col z; gt 9 2; n_unique 0; sum 2; col c";

// Each line has the nodes between a scan of the columns a and b and a sink, which reads the last of them and has its schema.
const SOUND: &str = "
filter 0.0 3 a,b -> yes 3 2
select 0.0 c=3,b=1 c:bool,b -> yes 3 2
with-columns 0.0 c=3,b=2 a,b,c:bool -> yes 3 2
row-index 0.0 n n:idx,a,b -> yes 3 2
reduce 0.0 s=4,n=7 s,n:idx -> yes 3 2
slice 0.0 - a,b -> yes 3 2
slice 0.0 -1 a,b -> yes 3 2
project 0.0 b,a b,a -> yes 3 2
map-function 0.0 0 a,b -> yes 3 2
whole-function 0.0 1 a,b -> yes 3 2
whole-select 0.0 s=4,b=6 s,b -> yes 3 2
whole-sort 0.0 6,0/2 a,b -> yes 3 2
whole-groups 0.0 a=6/n=11 a,n:idx -> yes 3 2
whole-distinct 0.0 all a,b -> yes 3 2
whole-distinct 0.0 b a,b -> yes 3 2
sort 0.0 1,0/1 a,b -> yes 3 2
group-by 0.0 a=0/s=8 a,s -> yes 3 2
multiplexer 0.0 - a,b; filter 1.1 3 a,b; union 2.0,1.0 - a,b -> yes 5 5
multiplexer 0.0 - a,b; select 1.0 c=0,d=1 c,d; zip 1.1,2.0 - a,b,c,d -> yes 5 5
source - d d; zip-extend 1.0,0.0 - d,a,b -> yes 4 3
source - c,d c,d; equi-join 0.0,1.0 inner/0/13 a,b,d -> yes 4 3
source - c,d c,d; equi-join 0.0,1.0 left/0/13 d,b -> yes 4 3
source - c,d c,d; join 0.0,1.0 inner+cut/6/13 a,b,d -> yes 4 3
source - c,d c,d; join 0.0,1.0 semi/0/13 a,b -> yes 4 3
source - c,d c,d; join 0.0,1.0 cross/-/- a,b,c,d -> yes 4 3
";

// The same of plans that break one rule each.
const UNSOUND: &str = "
filter 0.0 0 a,b -> no 3 2
filter 0.0 10 a,b -> no 3 2
filter 0.0 5 a,b -> no 3 2
filter 0.0 3 a -> no 3 2
filter 0.0 3 b,a -> no 3 2
filter 0.0 3 a,b:bool -> no 3 2
filter 0.0 99 a,b -> no 3 2
select 0.0 c=3,s=4 c:bool,s -> no 3 2
select 0.0 c=2 c -> no 3 2
select 0.0 a=0,a=1 a -> no 3 2
select 0.0 c=9 c -> no 3 2
select 0.0 - - -> no 3 2
with-columns 0.0 c=4 a,b,c -> no 3 2
with-columns 0.0 c=3 a,b,c -> no 3 2
with-columns 0.0 c=3 c:bool -> no 3 2
row-index 0.0 a a:idx,b -> no 3 2
row-index 0.0 n n,a,b -> no 3 2
reduce 0.0 s=0 s -> no 3 2
reduce 0.0 s=6 s -> no 3 2
reduce 0.0 s=11 s:idx -> no 3 2
reduce 0.0 s=12 s -> no 3 2
reduce 0.0 s=4,n=7 s,n -> no 3 2
slice 0.0 - a -> no 3 2
slice 0.0 0 a,b -> no 3 2
slice 0.0 1 a,b -> no 3 2
project 0.0 b,z b,z -> no 3 2
project 0.0 b,b b -> no 3 2
project 0.0 - - -> no 3 2
map-function 0.0 1 a,b -> no 3 2
map-function 0.0 2 a,b -> no 3 2
map-select 0.0 a=0 a -> no 3 2
whole-function 0.0 2 a,b -> no 3 2
whole-function 0.0 1 a -> no 3 2
whole-select 0.0 s=9 s -> no 3 2
whole-sort 0.0 0,1/3 a,b -> no 3 2
whole-groups 0.0 -/s=4 s -> no 3 2
whole-groups 0.0 a=0/b=6 a,b -> no 3 2
whole-distinct 0.0 - a,b -> no 3 2
whole-distinct 0.0 z a,b -> no 3 2
sort 0.0 -/0 a,b -> no 3 2
sort 0.0 9/1 a,b -> no 3 2
group-by 0.0 a=0/b=6 a,b -> no 3 2
group-by 0.0 s=6/n=7 s,n:idx -> no 3 2
group-by 0.0 a=0/a=8 a -> no 3 2
union - - a,b -> no 2 1
zip - - a,b -> no 2 1
zip-extend - - - -> no 2 1
independent - x=0 x -> no 2 1
independent - x=2 x:bool -> no 2 1
source - a,b a,b; zip 0.0,1.0 - a,b -> no 4 3
source - a a; union 0.0,1.0 - a,b -> no 4 3
source - c,d c,d; equi-join 0.0,1.0 inner+cut/0/13 a,b,d -> no 4 3
source - c,d c,d; equi-join 0.0,1.0 semi/0/13 a,b -> no 4 3
source - c,d c,d; equi-join 0.0,1.0 inner/6/13 a,b,d -> no 4 3
source - c,d c,d; join 0.0,1.0 inner/0/13 a,z -> no 4 3
source - c,d c,d; join 0.0,1.0 inner/0,1/13 a,b,d -> no 4 3
source - c,d c,d; join 0.0,1.0 inner/3/13 a,b,d -> no 4 3
source - c,d c,d; join 0.0,1.0 inner+once/0/13 a,b,d -> no 4 3
source - c,d c,d; join 0.0,1.0 inner/-/- a,b,c,d -> no 4 3
source - c,d c,d; join 0.0,1.0 inner/0/0 a,b,d -> no 4 3
filter 0.0 3 a,b; slice 0.0 - a,b; union 1.0,2.0 - a,b -> no 5 5
union 0.0,0.0 - a,b -> no 3 3
multiplexer 0.0 - a,b; slice 1.1 - a,b -> no 4 3
filter 2.0 3 a,b; slice 1.0 - a,b -> no 3 3
filter 1.0 3 a,b -> no 2 2
";

// The nodes of a plan: a scan in front, the nodes of a line, and a sink behind.
fn whole(alloc: Global, nodes: &str) -> Result<String, Fail> {
    let mut text = String::new(alloc);
    text.push_str("source - a,b a,b; ")?;
    text.push_str(nodes)?;
    let count = nodes.split("; ").count();
    let Some((_, fields)) = nodes.rsplit_once(" ") else {
        return Err(Fail::from("a node without a schema"));
    };
    write!(text, "; sink {count}.0 - {fields}")?;
    Ok(text)
}

#[test]
fn sound_plans_are_told(rt: HostRuntime) -> Result<(), Fail> {
    let alloc = rt.alloc();
    let exprs = arena(alloc, EXPRS)?;
    for line in SOUND.trim().lines() {
        let Some((nodes, wanted)) = line.split_once(" -> ") else {
            return Err(Fail::from("a plan without an answer"));
        };
        let given = told(alloc, whole(alloc, nodes)?.as_str(), &exprs)?;
        assert_eq!(rt; given.as_str(), wanted, "at {nodes}");
    }
    Ok(())
}

#[test]
fn other_plans_are_told(rt: HostRuntime) -> Result<(), Fail> {
    let alloc = rt.alloc();
    let exprs = arena(alloc, EXPRS)?;
    for line in UNSOUND.trim().lines() {
        let Some((nodes, wanted)) = line.split_once(" -> ") else {
            return Err(Fail::from("a plan without an answer"));
        };
        let given = told(alloc, whole(alloc, nodes)?.as_str(), &exprs)?;
        assert_eq!(rt; given.as_str(), wanted, "at {nodes}");
    }
    Ok(())
}
