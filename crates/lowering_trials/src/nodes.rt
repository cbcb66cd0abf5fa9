// Each kind of node, worked out by hand from the rules.

use crate::cases::first_unlike;
use std::test::Fail;

// The nodes of a plan, of which the last stands under a sink, and behind `->` the printed plan with `/` for the end of a
// line, and what each physical node computes, by its key. `@` stands for `__POLARS_STMP_`.
const SCANS_AND_COLUMNS: &str = r#"
["scan",0,null] -> 0 in-memory-source 0 -/1 in-memory-sink 1 0.0/ | 0:- 1:-
["scan",0,["b"]] -> 0 in-memory-source 0 -/1 simple-projection 0 0.0/2 in-memory-sink 1 1.0/ | 0:- 1:b 2:-
["scan",0,["b","a"]] -> 0 in-memory-source 0 -/1 simple-projection 0 0.0/2 in-memory-sink 1 1.0/ | 0:- 1:b,a 2:-
["scan",0,["a","b"]] -> 0 in-memory-source 0 -/1 in-memory-sink 1 0.0/ | 0:- 1:-
["scan",0,null] ["project",0,["b"]] -> 0 in-memory-source 0 -/1 simple-projection 1 0.0/2 in-memory-sink 2 1.0/ | 0:- 1:b 2:-
["scan",0,null] ["project",0,["a","b"]] -> 0 in-memory-source 0 -/1 simple-projection 1 0.0/2 in-memory-sink 2 1.0/ | 0:- 1:a,b 2:-
["scan",0,null] ["select",0,[["a",0],["b",1]]] -> 0 in-memory-source 0 -/1 in-memory-sink 2 0.0/ | 0:- 1:-
["scan",0,null] ["select",0,[["s",5],["b",1]]] -> 0 in-memory-source 0 -/1 reduce 1 0.0/2 zip 1 0.0,1.0/3 select 1 2.0/4 in-memory-sink 2 3.0/ | 0:- 1:@0=sum(a) 2:- 3:s=@0,b=b 4:-
["scan",0,null] ["select",0,[["x",3]]] -> 0 input-independent-select 1 -/1 in-memory-sink 2 0.0/ | 0:- 1:x=1 2:-
["scan",0,null] ["hstack",0,[["d",9]]] -> 0 in-memory-source 0 -/1 with-columns 1 0.0/2 in-memory-sink 2 1.0/ | 0:- 1:d=Plus(a,1) 2:-
["scan",0,null] ["hstack",0,[["a",9],["d",3]]] -> 0 in-memory-source 0 -/1 with-columns 1 0.0/2 in-memory-sink 2 1.0/ | 0:- 1:a=Plus(a,1),d=1 2:-
["scan",0,null] ["hstack",0,[["d",0],["b",8]]] -> 0 in-memory-source 0 -/1 reduce 1 0.0/2 zip 1 0.0,1.0/3 select 1 2.0/4 in-memory-sink 2 3.0/ | 0:- 1:@0=sum(a) 2:- 3:a=a,b=Plus(b,@0),d=a 4:-
["scan",0,null] ["hstack",0,[["x",36]]] -> 0 in-memory-source 0 -/1 select 1 0.0/2 sort 1 1.0/3 zip 1 0.0,2.0/4 select 1 3.0/5 in-memory-sink 2 4.0/ | 0:- 1:@0=b 2:@0;true;false 3:- 4:a=a,b=b,x=@0 5:-
["scan",0,null] ["hstack",0,[["n",6],["x",24],["s",5]]] -> 0 in-memory-source 0 -/1 simple-projection 1 0.0/2 in-memory-map 1 1.0/3 reduce 1 0.0/4 zip 1 0.0,2.0,3.0/5 select 1 4.0/6 in-memory-sink 2 5.0/ | 0:- 1:b 2:@1=Reverse(b) 3:@0=len,@2=sum(a) 4:- 5:a=a,b=b,n=@0,x=@1,s=@2 6:-
["scan",0,null] ["select",0,[["a",0],["b",8]]] ["hstack",1,[["x",5]]] -> 0 in-memory-source 0 -/1 reduce 1 0.0/2 zip 1 0.0,1.0/3 select 1 2.0/4 reduce 2 3.0/5 zip 2 3.0,4.0/6 select 2 5.0/7 in-memory-sink 3 6.0/ | 0:- 1:@0=sum(a) 2:- 3:a=a,b=Plus(b,@0) 4:@1=sum(a) 5:- 6:a=a,b=b,x=@1 7:-
["scan",0,null] ["row_index",0,"i",null] -> 0 in-memory-source 0 -/1 with-row-index 1 0.0/2 in-memory-sink 2 1.0/ | 0:- 1:i 2:-
["scan",0,null] ["row_index",0,"i",4294967295] -> 0 in-memory-source 0 -/1 with-row-index 1 0.0/2 in-memory-sink 2 1.0/ | 0:- 1:i;4294967295 2:-
["scan",0,null] ["map",0,0] -> 0 in-memory-source 0 -/1 map 1 0.0/2 in-memory-sink 2 1.0/ | 0:- 1:function 0 2:-
["scan",0,null] ["map",0,1] -> 0 in-memory-source 0 -/1 in-memory-map 1 0.0/2 in-memory-sink 2 1.0/ | 0:- 1:function 1 2:-
"#;

const FILTERS_SLICES_AND_SORTS: &str = r#"
["scan",0,null] ["filter",0,7] -> 0 in-memory-source 0 -/1 filter 1 0.0/2 in-memory-sink 2 1.0/ | 0:- 1:Gt(a,1) 2:-
["scan",0,null] ["filter",0,32] -> 0 in-memory-source 0 -/1 filter 1 0.0/2 in-memory-sink 2 1.0/ | 0:- 1:true 2:-
["scan",0,null] ["filter",0,10] -> 0 in-memory-source 0 -/1 reduce 1 0.0/2 zip 1 0.0,1.0/3 filter 1 2.0/4 simple-projection 1 3.0/5 in-memory-sink 2 4.0/ | 0:- 1:@0=sum(a) 2:- 3:Gt(a,@0) 4:a,b 5:-
["scan",0,null] ["filter",0,20] -> 0 in-memory-source 0 -/1 reduce 1 0.0/2 zip 1 0.0,1.0/3 filter 1 2.0/4 simple-projection 1 3.0/5 in-memory-sink 2 4.0/ | 0:- 1:@0=sum(a) 2:- 3:Gt(@0,1) 4:a,b 5:-
["scan",0,null] ["filter",0,29] -> 0 in-memory-source 0 -/1 simple-projection 1 0.0/2 in-memory-map 1 1.0/3 zip 1 0.0,2.0/4 filter 1 3.0/5 simple-projection 1 4.0/6 in-memory-sink 2 5.0/ | 0:- 1:b 2:@0=Reverse(b) 3:- 4:Gt(@0,1) 5:a,b 6:-
["scan",0,null] ["filter",0,39] -> 0 in-memory-source 0 -/1 select 1 0.0/2 filter 1 1.0/3 reduce 1 2.0/4 zip 1 0.0,3.0/5 filter 1 4.0/6 simple-projection 1 5.0/7 in-memory-sink 2 6.0/ | 0:- 1:@0=a,@1=Gt(a,1) 2:@1 3:@2=sum(@0) 4:- 5:Gt(a,@2) 6:a,b 7:-
["scan",0,null] ["slice",0,1,2] -> 0 in-memory-source 0 -/1 slice 1 0.0/2 in-memory-sink 2 1.0/ | 0:- 1:1,2 2:-
["scan",0,null] ["slice",0,3,0] -> 0 in-memory-source 0 -/1 slice 1 0.0/2 in-memory-sink 2 1.0/ | 0:- 1:3,0 2:-
["scan",0,null] ["slice",0,0,18446744073709551615] -> 0 in-memory-source 0 -/1 slice 1 0.0/2 in-memory-sink 2 1.0/ | 0:- 1:0,18446744073709551615 2:-
["scan",0,null] ["slice",0,9223372036854775807,1] -> 0 in-memory-source 0 -/1 slice 1 0.0/2 in-memory-sink 2 1.0/ | 0:- 1:9223372036854775807,1 2:-
["scan",0,null] ["slice",0,-2,1] -> 0 in-memory-source 0 -/1 negative-slice 1 0.0/2 in-memory-sink 2 1.0/ | 0:- 1:-2,1 2:-
["scan",0,null] ["slice",0,-1,0] -> 0 in-memory-source 0 -/1 slice 1 0.0/2 in-memory-sink 2 1.0/ | 0:- 1:0,0 2:-
["scan",0,null] ["slice",0,-9223372036854775808,18446744073709551615] -> 0 in-memory-source 0 -/1 negative-slice 1 0.0/2 in-memory-sink 2 1.0/ | 0:- 1:-9223372036854775808,18446744073709551615 2:-
["scan",0,null] ["slice",0,-9223372036854775808,0] -> 0 in-memory-source 0 -/1 slice 1 0.0/2 in-memory-sink 2 1.0/ | 0:- 1:0,0 2:-
["scan",0,null] ["sort",0,[1],[true],[false],null] -> 0 in-memory-source 0 -/1 sort 1 0.0/2 in-memory-sink 2 1.0/ | 0:- 1:b;true;false 2:-
["scan",0,null] ["sort",0,[1,9],[true,false],[false],[1,2]] -> 0 in-memory-source 0 -/1 sort 1 0.0/2 in-memory-sink 2 1.0/ | 0:- 1:b,Plus(a,1);true,false;false;cut(1,2) 2:-
["scan",0,null] ["sort",0,[8],[false],[true],[-2,1]] -> 0 in-memory-source 0 -/1 sort 1 0.0/2 in-memory-sink 2 1.0/ | 0:- 1:Plus(b,sum(a));false;true;cut(-2,1) 2:-
["scan",0,null] ["sort",0,[0],[false],[false],[-1,0]] -> 0 in-memory-source 0 -/1 sort 1 0.0/2 in-memory-sink 2 1.0/ | 0:- 1:a;false;false;cut(-1,0) 2:-
"#;

const UNIONS_AND_JOINS: &str = r#"
["scan",0,null] ["union",[0],null] -> 0 in-memory-source 0 -/1 ordered-union 1 0.0/2 in-memory-sink 2 1.0/ | 0:- 1:- 2:-
["scan",0,null] ["scan",0,null] ["union",[1,0],null] -> 0 in-memory-source 1 -/1 in-memory-source 0 -/2 ordered-union 2 0.0,1.0/3 in-memory-sink 3 2.0/ | 0:- 1:- 2:- 3:-
["scan",0,null] ["union",[0,0],[1,2]] -> 0 in-memory-source 0 -/1 in-memory-source 0 -/2 ordered-union 1 0.0,1.0/3 slice 1 2.0/4 in-memory-sink 2 3.0/ | 0:- 1:- 2:- 3:1,2 4:-
["scan",0,null] ["union",[0,0],[-1,0]] -> 0 in-memory-source 0 -/1 in-memory-source 0 -/2 ordered-union 1 0.0,1.0/3 slice 1 2.0/4 in-memory-sink 2 3.0/ | 0:- 1:- 2:- 3:0,0 4:-
["scan",0,null] ["select",0,[["a",1],["b",8]]] ["union",[0,1,0],[-1,2]] -> 0 in-memory-source 0 -/1 in-memory-source 0 -/2 reduce 1 1.0/3 zip 1 1.0,2.0/4 select 1 3.0/5 in-memory-source 0 -/6 ordered-union 2 0.0,4.0,5.0/7 negative-slice 2 6.0/8 in-memory-sink 3 7.0/ | 0:- 1:- 2:@0=sum(a) 3:- 4:a=b,b=Plus(b,@0) 5:- 6:- 7:-1,2 8:-
["scan",0,null] ["scan",2,null] ["hconcat",[0,1]] -> 0 in-memory-source 0 -/1 in-memory-source 1 -/2 zip-null-extend 2 0.0,1.0/3 in-memory-sink 3 2.0/ | 0:- 1:- 2:- 3:-
["scan",0,null] ["select",0,[["s",5],["x",1]]] ["scan",2,null] ["hconcat",[1,2]] -> 0 in-memory-source 0 -/1 reduce 1 0.0/2 zip 1 0.0,1.0/3 select 1 2.0/4 in-memory-source 2 -/5 zip-null-extend 3 3.0,4.0/6 in-memory-sink 4 5.0/ | 0:- 1:@0=sum(a) 2:- 3:s=@0,x=b 4:- 5:- 6:-
["scan",0,null] ["union",[0,0],null] ["scan",2,null] ["union",[2,2],[1,1]] ["hconcat",[1,3]] -> 0 in-memory-source 0 -/1 in-memory-source 0 -/2 ordered-union 1 0.0,1.0/3 in-memory-source 2 -/4 in-memory-source 2 -/5 ordered-union 3 3.0,4.0/6 slice 3 5.0/7 zip-null-extend 4 2.0,6.0/8 in-memory-sink 5 7.0/ | 0:- 1:- 2:- 3:- 4:- 5:- 6:1,1 7:- 8:-
["scan",0,null] ["scan",1,null] ["join",0,1,"inner",[0],[0],null,false,"m:m",null] -> 0 in-memory-source 0 -/1 in-memory-source 1 -/2 equi-join 2 0.0,1.0/3 in-memory-sink 3 2.0/ | 0:- 1:- 2:Inner;a;a 3:-
["scan",0,null] ["scan",1,null] ["join",0,1,"left",[0,1],[0,2],null,false,"m:m",null] -> 0 in-memory-source 0 -/1 in-memory-source 1 -/2 equi-join 2 0.0,1.0/3 in-memory-sink 3 2.0/ | 0:- 1:- 2:Left;a,b;a,c 3:-
["scan",0,null] ["scan",1,null] ["join",1,0,"right",[2],[1],null,false,"m:m",null] -> 0 in-memory-source 1 -/1 in-memory-source 0 -/2 equi-join 2 0.0,1.0/3 in-memory-sink 3 2.0/ | 0:- 1:- 2:Right;c;b 3:-
["scan",0,null] ["scan",1,null] ["join",0,1,"full",[0],[0],"_x",true,"m:m",null] -> 0 in-memory-source 0 -/1 in-memory-source 1 -/2 equi-join 2 0.0,1.0/3 in-memory-sink 3 2.0/ | 0:- 1:- 2:Full;a;a;suffix _x;nulls 3:-
["scan",0,null] ["scan",1,null] ["join",0,1,"semi",[0],[0],null,false,"m:m",null] -> 0 in-memory-source 0 -/1 in-memory-source 1 -/2 in-memory-join 2 0.0,1.0/3 in-memory-sink 3 2.0/ | 0:- 1:- 2:Semi;a;a 3:-
["scan",0,null] ["scan",1,null] ["join",0,1,"anti",[8],[34],null,true,"m:m",null] -> 0 in-memory-source 0 -/1 in-memory-source 1 -/2 in-memory-join 2 0.0,1.0/3 in-memory-sink 3 2.0/ | 0:- 1:- 2:Anti;Plus(b,sum(a));Plus(c,max(c));nulls 3:-
["scan",0,null] ["scan",1,null] ["join",0,1,"cross",[],[],null,false,"m:m",null] -> 0 in-memory-source 0 -/1 in-memory-source 1 -/2 in-memory-join 2 0.0,1.0/3 in-memory-sink 3 2.0/ | 0:- 1:- 2:Cross;; 3:-
["scan",0,null] ["scan",1,null] ["join",0,1,"inner",[0],[0],null,false,"m:m",[1,2]] -> 0 in-memory-source 0 -/1 in-memory-source 1 -/2 equi-join 2 0.0,1.0/3 slice 2 2.0/4 in-memory-sink 3 3.0/ | 0:- 1:- 2:Inner;a;a 3:1,2 4:-
["scan",0,null] ["scan",1,null] ["join",0,1,"left",[0],[0],null,false,"m:m",[-3,0]] -> 0 in-memory-source 0 -/1 in-memory-source 1 -/2 equi-join 2 0.0,1.0/3 slice 2 2.0/4 in-memory-sink 3 3.0/ | 0:- 1:- 2:Left;a;a 3:0,0 4:-
["scan",0,null] ["scan",1,null] ["join",0,1,"full",[0],[0],null,false,"m:m",[-3,1]] -> 0 in-memory-source 0 -/1 in-memory-source 1 -/2 equi-join 2 0.0,1.0/3 negative-slice 2 2.0/4 in-memory-sink 3 3.0/ | 0:- 1:- 2:Full;a;a 3:-3,1 4:-
["scan",0,null] ["scan",1,null] ["join",0,1,"semi",[0],[0],null,false,"m:m",[-3,0]] -> 0 in-memory-source 0 -/1 in-memory-source 1 -/2 in-memory-join 2 0.0,1.0/3 in-memory-sink 3 2.0/ | 0:- 1:- 2:Semi;a;a;cut(-3,0) 3:-
["scan",0,null] ["scan",1,null] ["join",0,1,"cross",[],[],null,false,"m:m",[1,2]] -> 0 in-memory-source 0 -/1 in-memory-source 1 -/2 in-memory-join 2 0.0,1.0/3 in-memory-sink 3 2.0/ | 0:- 1:- 2:Cross;;;cut(1,2) 3:-
["scan",0,null] ["scan",1,null] ["join",0,1,"inner",[3],[4],null,false,"m:m",null] -> 0 in-memory-source 0 -/1 in-memory-source 1 -/2 equi-join 2 0.0,1.0/3 in-memory-sink 3 2.0/ | 0:- 1:- 2:Inner;1;2 3:-
["scan",0,null] ["scan",1,null] ["join",0,1,"inner",[8],[2],null,false,"m:m",null] -> 0 in-memory-source 0 -/1 reduce 2 0.0/2 zip 2 0.0,1.0/3 in-memory-source 1 -/4 equi-join 2 2.0,3.0/5 in-memory-sink 3 4.0/ | 0:- 1:- 2:@0=sum(a) 3:- 4:Inner;Plus(b,@0);c 5:-
["scan",0,null] ["scan",1,null] ["join",0,1,"full",[8,0],[34,9],null,false,"m:m",[0,1]] -> 0 in-memory-source 0 -/1 reduce 2 0.0/2 zip 2 0.0,1.0/3 in-memory-source 1 -/4 reduce 2 3.0/5 zip 2 3.0,4.0/6 equi-join 2 2.0,5.0/7 slice 2 6.0/8 in-memory-sink 3 7.0/ | 0:- 1:- 2:@0=sum(a) 3:- 4:@1=max(c) 5:- 6:Full;Plus(b,@0),a;Plus(c,@1),Plus(a,1) 7:0,1 8:-
["scan",0,null] ["select",0,[["a",0],["b",8]]] ["scan",1,null] ["select",2,[["a",0],["c",34]]] ["join",1,3,"left",[9],[34],null,false,"m:m",null] -> 0 in-memory-source 0 -/1 reduce 1 0.0/2 zip 1 0.0,1.0/3 select 1 2.0/4 in-memory-source 2 -/5 reduce 3 4.0/6 zip 3 4.0,5.0/7 select 3 6.0/8 reduce 4 7.0/9 zip 4 7.0,8.0/10 equi-join 4 3.0,9.0/11 in-memory-sink 5 10.0/ | 0:- 1:@0=sum(a) 2:- 3:a=a,b=Plus(b,@0) 4:- 5:@1=max(c) 6:- 7:a=a,c=Plus(c,@1) 8:@2=max(c) 9:- 10:Left;Plus(a,1);Plus(c,@2) 11:-
"#;

#[test]
fn scans_and_columns_become_these_nodes(rt: HostRuntime) -> Result<(), Fail> {
    let unlike = first_unlike(rt.alloc(), SCANS_AND_COLUMNS)?;
    assert_eq!(rt; unlike.as_str(), "");
    Ok(())
}

#[test]
fn filters_slices_and_sorts_become_these_nodes(rt: HostRuntime) -> Result<(), Fail> {
    let unlike = first_unlike(rt.alloc(), FILTERS_SLICES_AND_SORTS)?;
    assert_eq!(rt; unlike.as_str(), "");
    Ok(())
}

#[test]
fn unions_and_joins_become_these_nodes(rt: HostRuntime) -> Result<(), Fail> {
    let unlike = first_unlike(rt.alloc(), UNIONS_AND_JOINS)?;
    assert_eq!(rt; unlike.as_str(), "");
    Ok(())
}
