// Worked calls over a source, worked out by hand from the rules.
ghost use Rattle.std.specs.List.{AllByRecursion};
ghost use Rattle.ps_frame.specs.Functions.{Functions};
ghost use Rattle.ps_frame.specs.Trees.{IsComplete, tree_at};
ghost use Rattle.ps_fresh.specs.Known.{Remembers};
ghost use Rattle.ps_meaning.specs.Steps.{key_trees};
ghost use Rattle.valid_plans.specs.Valid.{IsValidWith};

use crate::beginnings::{begun, source_of};
use crate::select_documents::select;
use crate::valid::select_of;
use expr_lowering::exprs::{build_select_stream, lower_exprs};
use lowering_scripts::documents::{spelled, valid_plan};
use lowering_scripts::exprs::push_named;
use lowering_scripts::written::told;
use ps_document::document::Document;
use ps_frame::expr::AExpr;
use ps_fresh::lowering::Lowering;
use ps_meaning::options::ExprIR;
use ps_phys::phys::PhysStream;
use pu_base::{Arena, Node};
use std::alloc::Global;
use std::test::Fail;
use valid_plans::valid::Valid;

// What a call for expressions leaves: the plan, what its nodes compute, and the answered expressions.
fn called(
    alloc: Global,
    exprs: &mut Arena<AExpr>,
    low: &mut Lowering,
    input: PhysStream,
    asked: &[ExprIR],
) -> Result<String, Fail>
    requires whole { AllByRecursion IsComplete (key_trees (tree_at exprs.old.items) asked.now) }
    requires cache { Remembers exprs.old.items low.old.cache }
{
    let Ok((stream, answered)) = lower_exprs(alloc, exprs, low, input, asked) else {
        return Err(Fail::from("no stream"));
    };
    let mut text = told(alloc, exprs, &low.phys_sm, stream)?;
    text.push_str(" | ")?;
    push_named(exprs, answered.as_slice(), &mut text)?;
    Ok(text)
}

// What a select leaves: the plan, and what its nodes compute.
fn selected(
    alloc: Global,
    exprs: &mut Arena<AExpr>,
    low: &mut Lowering,
    input: PhysStream,
    asked: &[ExprIR],
) -> Result<String, Fail>
    requires whole { AllByRecursion IsComplete (key_trees (tree_at exprs.old.items) asked.now) }
    requires cache { Remembers exprs.old.items low.old.cache }
{
    let Ok(stream) = build_select_stream(alloc, exprs, low, input, asked) else {
        return Err(Fail::from("no stream"));
    };
    told(alloc, exprs, &low.phys_sm, stream)
}

// The select of a valid plan, or a call for its expressions, over the source of its table.
fn lowered(
    alloc: Global,
    valid: &Valid,
    exprs: &mut Arena<AExpr>,
    is_select: bool,
) -> Result<String, Fail>
    requires { (F : Functions) × IsValidWith F valid.now exprs.old.items }
{
    let (asked, table) = select_of(valid, exprs)?;
    let mut low = begun(alloc, valid, exprs)?;
    let input = source_of(alloc, table, &mut low)?;
    low.origin = Node(1);
    if is_select {
        return selected(alloc, exprs, &mut low, input, asked);
    }
    called(alloc, exprs, &mut low, input, asked)
}

fn lowered_plan(
    alloc: Global,
    columns: &str,
    asked: &str,
    is_select: bool,
) -> Result<String, Fail> {
    let Document {
        nodes,
        mut exprs,
        root,
    } = select(alloc, columns, EXPRS, asked)?;
    let valid = valid_plan(alloc, root, nodes, &exprs)?;
    lowered(alloc, &valid, &mut exprs, is_select)
}

const EXPRS: &str =
    r#"["col","a"],["col","b"],["int",1],["int",2],["sum",0],["len"],["gt",0,2],["add",1,4],["sum",4],["reverse",1],["filter",1,6],["sort",1,true,false],["sort_by",1,[0],[true],[false]],["n_unique",0],["count",1,false],["min",10],["cast",4,"str",true],["ternary",6,4,1],["gather",1,2,true],["slice",1,2,3],["add",0,2],["sum",20],["add",4,9],["sum",2],["reverse",2],["max",9],["last",1],["first",7]"#;

// The columns of the table, `lower` or `select`, the expressions by name and number, and behind `->` the plan, what its
// nodes compute and what is answered. `@` stands for `__POLARS_STMP_`. Node 0 scans, and node 1 selects.
const CASES: &str = r#"
a,b lower s=4,b=1 -> 0 in-memory-source 0 -/1 reduce 1 0.0/2 zip 1 0.0,1.0/ | 0:- 1:@0=sum(a) 2:- | s=@0,b=b
a,b lower s=4,n=5 -> 0 in-memory-source 0 -/1 reduce 1 0.0/ | 0:- 1:@0=sum(a),@1=len | s=@0,n=@1
a,b lower x=2,y=3 -> 0 input-independent-select 1 -/ | 0:- 1:@0=1,@1=2 | x=@0,y=@1
a,b lower x=7 -> 0 in-memory-source 0 -/1 reduce 1 0.0/2 zip 1 0.0,1.0/ | 0:- 1:@0=sum(a) 2:- | x=Plus(b,@0)
a,b lower x=8 -> 0 in-memory-source 0 -/1 reduce 1 0.0/2 reduce 1 1.0/ | 0:- 1:@0=sum(a) 2:@1=sum(@0) | x=@1
a,b lower x=9 -> 0 in-memory-source 0 -/1 simple-projection 1 0.0/2 in-memory-map 1 1.0/ | 0:- 1:b 2:@0=Reverse(b) | x=@0
a,b lower x=10 -> 0 in-memory-source 0 -/1 select 1 0.0/2 filter 1 1.0/ | 0:- 1:@0=b,@1=Gt(a,1) 2:@1 | x=@0
a,b lower x=11 -> 0 in-memory-source 0 -/1 select 1 0.0/2 sort 1 1.0/ | 0:- 1:@0=b 2:@0;true;false | x=@0
a,b lower x=12 -> 0 in-memory-source 0 -/1 select 1 0.0/2 sort 1 1.0/3 simple-projection 1 2.0/ | 0:- 1:@0=b,@1=a 2:@1;true;false 3:@0 | x=@0
a,b lower x=13,y=14 -> 0 in-memory-source 0 -/1 in-memory-map 1 0.0/ | 0:- 1:@0=n_unique(a),@1=count(b) | x=@0,y=@1
a,b lower x=15 -> 0 in-memory-source 0 -/1 select 1 0.0/2 filter 1 1.0/3 reduce 1 2.0/ | 0:- 1:@0=b,@1=Gt(a,1) 2:@1 3:@2=min(@0) | x=@2
a,b lower x=16 -> 0 in-memory-source 0 -/1 reduce 1 0.0/ | 0:- 1:@0=sum(a) | x=cast(@0)
a,b lower x=17 -> 0 in-memory-source 0 -/1 reduce 1 0.0/2 zip 1 0.0,1.0/ | 0:- 1:@0=sum(a) 2:- | x=if(Gt(a,1),@0,b)
a,b lower x=18 -> 0 in-memory-source 0 -/1 simple-projection 1 0.0/2 in-memory-map 1 1.0/ | 0:- 1:b 2:@0=gather(b,1) | x=@0
a,b lower x=19 -> 0 in-memory-source 0 -/1 simple-projection 1 0.0/2 in-memory-map 1 1.0/ | 0:- 1:b 2:@0=slice(b,1,2) | x=@0
a,b lower x=20 -> 0 in-memory-source 0 -/ | 0:- | x=Plus(a,1)
a,b lower x=21,y=26 -> 0 in-memory-source 0 -/1 reduce 1 0.0/ | 0:- 1:@0=sum(Plus(a,1)),@1=last(b) | x=@0,y=@1
a,b lower x=22 -> 0 in-memory-source 0 -/1 simple-projection 1 0.0/2 in-memory-map 1 1.0/3 reduce 1 0.0/4 zip 1 2.0,3.0/ | 0:- 1:b 2:@1=Reverse(b) 3:@0=sum(a) 4:- | x=Plus(@0,@1)
a,b lower x=4,y=7 -> 0 in-memory-source 0 -/1 reduce 1 0.0/2 zip 1 0.0,1.0/ | 0:- 1:@0=sum(a),@1=sum(a) 2:- | x=@0,y=Plus(b,@1)
a,b lower x=2,y=4 -> 0 in-memory-source 0 -/1 reduce 1 0.0/ | 0:- 1:@0=sum(a) | x=1,y=@0
a,b lower x=23,b=1 -> 0 input-independent-select 1 -/1 reduce 1 0.0/2 in-memory-source 0 -/3 zip 1 1.0,2.0/ | 0:- 1:@0=1 2:@1=sum(@0) 3:- | x=@1,b=b
a,b lower x=24 -> 0 input-independent-select 1 -/ | 0:- 1:@0=Reverse(1) | x=@0
a,b lower x=25 -> 0 in-memory-source 0 -/1 simple-projection 1 0.0/2 in-memory-map 1 1.0/3 reduce 1 2.0/ | 0:- 1:b 2:@0=Reverse(b) 3:@1=max(@0) | x=@1
a,b lower x=27 -> 0 in-memory-source 0 -/1 reduce 1 0.0/2 zip 1 0.0,1.0/3 reduce 1 2.0/ | 0:- 1:@0=sum(a) 2:- 3:@1=first(Plus(b,@0)) | x=@1
a,@0 lower x=4 -> 0 in-memory-source 0 -/1 reduce 1 0.0/ | 0:- 1:@1=sum(a) | x=@1
@1,a,b lower x=4,y=5 -> 0 in-memory-source 0 -/1 reduce 1 0.0/ | 0:- 1:@0=sum(a),@2=len | x=@0,y=@2
a,b lower @0=4,b=1 -> 0 in-memory-source 0 -/1 reduce 1 0.0/2 zip 1 0.0,1.0/ | 0:- 1:@1=sum(a) 2:- | @0=@1,b=b
a,b select b=1 -> 0 in-memory-source 0 -/1 simple-projection 1 0.0/ | 0:- 1:b
a,b select a=0,b=1 -> 0 in-memory-source 0 -/ | 0:-
a,b select b=1,a=0 -> 0 in-memory-source 0 -/1 simple-projection 1 0.0/ | 0:- 1:b,a
a,b select x=1 -> 0 in-memory-source 0 -/1 select 1 0.0/ | 0:- 1:x=b
a,b select x=2,y=23 -> 0 input-independent-select 1 -/ | 0:- 1:x=1,y=sum(1)
a,b select s=4,b=1 -> 0 in-memory-source 0 -/1 reduce 1 0.0/2 zip 1 0.0,1.0/3 select 1 2.0/ | 0:- 1:@0=sum(a) 2:- 3:s=@0,b=b
a,b select a=0,x=2,p=7,c=16,s=11,k=12,g=18,f=10,m=4,t=17,r=9,l=19,n=5,u=13 -> 0 in-memory-source 0 -/1 select 1 0.0/2 sort 1 1.0/3 select 1 0.0/4 sort 1 3.0/5 simple-projection 1 4.0/6 select 1 0.0/7 filter 1 6.0/8 in-memory-map 1 0.0/9 reduce 1 0.0/10 zip 1 0.0,2.0,5.0,7.0,8.0,9.0/11 select 1 10.0/ | 0:- 1:@2=b 2:@2;true;false 3:@3=b,@4=a 4:@4;true;false 5:@3 6:@6=b,@7=Gt(a,1) 7:@7 8:@5=gather(b,1),@10=Reverse(b),@11=slice(b,1,2),@13=n_unique(a) 9:@0=sum(a),@1=sum(a),@8=sum(a),@9=sum(a),@12=len 10:- 11:a=a,x=1,p=Plus(b,@0),c=cast(@1),s=@2,k=@3,g=@5,f=@6,m=@8,t=if(Gt(a,1),@9,b),r=@10,l=@11,n=@12,u=@13
"#;

// What a case gives, and what it should.
fn both(alloc: Global, case: &str) -> Result<(String, String), Fail> {
    let Some((call, wanted)) = case.split_once(" -> ") else {
        return Err(Fail::from("a case without an answer"));
    };
    let Some((columns, call)) = call.split_once(" ") else {
        return Err(Fail::from("a case without a call"));
    };
    let Some((word, asked)) = call.split_once(" ") else {
        return Err(Fail::from("a case without expressions"));
    };
    let given = lowered_plan(alloc, columns, asked, word == "select")?;
    Ok((given, spelled(alloc, wanted)?))
}

#[test]
fn calls_leave_what_the_rules_say(rt: HostRuntime) -> Result<(), Fail> {
    let alloc = rt.alloc();
    for case in CASES.trim().lines() {
        let (given, wanted) = both(alloc, case)?;
        assert_eq!(rt; given.as_str(), wanted.as_str(), "at {case}");
    }
    Ok(())
}
