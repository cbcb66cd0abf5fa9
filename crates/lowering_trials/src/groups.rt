// Group-bys and distincts, worked out by hand from the rules.

use crate::cases::first_unlike;
use std::test::Fail;

// The nodes of a plan, of which the last stands under a sink, and behind `->` the printed plan with `/` for the end of a
// line, and what each physical node computes, by its key. `@` stands for `__POLARS_STMP_`.
const GROUPS_THAT_STREAM: &str = r#"
["scan",0,null] ["group_by",0,[["b",1]],[["s",5]],false,null] -> 0 in-memory-source 0 -/1 group-by 1 0.0/2 in-memory-sink 2 1.0/ | 0:- 1:b=b;s=sum(a) 2:-
["scan",0,null] ["group_by",0,[["b",1],["k",0]],[],false,null] -> 0 in-memory-source 0 -/1 group-by 1 0.0/2 in-memory-sink 2 1.0/ | 0:- 1:b=b,k=a; 2:-
["scan",0,null] ["group_by",0,[["k",3]],[["s",5]],false,null] -> 0 in-memory-source 0 -/1 group-by 1 0.0/2 in-memory-sink 2 1.0/ | 0:- 1:k=1;s=sum(a) 2:-
["scan",0,null] ["group_by",0,[["k",3],["j",4]],[["n",6]],false,null] -> 0 in-memory-source 0 -/1 group-by 1 0.0/2 in-memory-sink 2 1.0/ | 0:- 1:k=1,j=2;n=len 2:-
["scan",0,null] ["group_by",0,[["b",1]],[["x",3]],false,null] -> 0 in-memory-source 0 -/1 group-by 1 0.0/2 select 1 1.0/3 in-memory-sink 2 2.0/ | 0:- 1:b=b; 2:b=b,x=1 3:-
["scan",0,null] ["group_by",0,[["b",1]],[["x",17]],false,null] -> 0 in-memory-source 0 -/1 group-by 1 0.0/2 select 1 1.0/3 in-memory-sink 2 2.0/ | 0:- 1:b=b;@0=sum(a),@1=min(b) 2:b=b,x=Plus(@0,@1) 3:-
["scan",0,null] ["group_by",0,[["b",1]],[["x",18]],false,null] -> 0 in-memory-source 0 -/1 group-by 1 0.0/2 select 1 1.0/3 in-memory-sink 2 2.0/ | 0:- 1:b=b;@0=sum(a),@1=sum(a) 2:b=b,x=Plus(@0,@1) 3:-
["scan",0,null] ["group_by",0,[["b",1]],[["s",5],["x",17],["n",6],["t",5],["y",26]],false,null] -> 0 in-memory-source 0 -/1 group-by 1 0.0/2 select 1 1.0/3 in-memory-sink 2 2.0/ | 0:- 1:b=b;s=sum(a),@0=sum(a),@1=min(b),n=len,t=sum(a),@2=sum(a) 2:b=b,s=s,x=Plus(@0,@1),n=n,t=t,y=Plus(@2,1) 3:-
["scan",0,null] ["group_by",0,[["b",1]],[["f",14],["l",13],["m",11],["x",12]],false,null] -> 0 in-memory-source 0 -/1 group-by 1 0.0/2 in-memory-sink 2 1.0/ | 0:- 1:b=b;f=first(b),l=last(b),m=min(b),x=max(b) 2:-
["scan",0,null] ["group_by",0,[["k",9]],[["s",22]],false,null] -> 0 in-memory-source 0 -/1 group-by 1 0.0/2 in-memory-sink 2 1.0/ | 0:- 1:k=Plus(a,1);s=sum(Plus(a,1)) 2:-
["scan",0,null] ["group_by",0,[["k",8]],[["s",5]],false,null] -> 0 in-memory-source 0 -/1 reduce 1 0.0/2 zip 1 0.0,1.0/3 group-by 1 2.0/4 in-memory-sink 2 3.0/ | 0:- 1:@0=sum(a) 2:- 3:k=Plus(b,@0);s=sum(a) 4:-
["scan",0,null] ["group_by",0,[["k",20],["b",1]],[["x",17]],false,null] -> 0 in-memory-source 0 -/1 reduce 1 0.0/2 zip 1 0.0,1.0/3 group-by 1 2.0/4 select 1 3.0/5 in-memory-sink 2 4.0/ | 0:- 1:@0=sum(a) 2:- 3:k=Gt(@0,1),b=b;@1=sum(a),@2=min(b) 4:k=k,b=b,x=Plus(@1,@2) 5:-
["scan",0,null] ["group_by",0,[["k",24]],[["s",5]],false,null] -> 0 in-memory-source 0 -/1 simple-projection 1 0.0/2 in-memory-map 1 1.0/3 zip 1 0.0,2.0/4 group-by 1 3.0/5 in-memory-sink 2 4.0/ | 0:- 1:b 2:@0=Reverse(b) 3:- 4:k=@0;s=sum(a) 5:-
["scan",0,null] ["group_by",0,[["b",1]],[["x",19],["y",21],["z",23],["w",28],["v",35]],false,null] -> 0 in-memory-source 0 -/1 group-by 1 0.0/2 select 1 1.0/3 in-memory-sink 2 2.0/ | 0:- 1:b=b;@0=sum(a),@1=sum(a),@2=min(b),@3=max(b),@4=sum(a),@5=sum(a),@6=len,@7=sum(a) 2:b=b,x=cast(@0),y=if(Gt(@1,1),@2,@3),z=IsNull(@4),w=Plus(@5,cast(@6)),v=Not(Gt(@7,1)) 3:-
["scan",0,null] ["group_by",0,[["b",1]],[["s",5]],false,[1,2]] -> 0 in-memory-source 0 -/1 group-by 1 0.0/2 slice 1 1.0/3 in-memory-sink 2 2.0/ | 0:- 1:b=b;s=sum(a) 2:1,2 3:-
["scan",0,null] ["group_by",0,[["b",1]],[["x",17]],false,[-1,2]] -> 0 in-memory-source 0 -/1 group-by 1 0.0/2 select 1 1.0/3 negative-slice 1 2.0/4 in-memory-sink 2 3.0/ | 0:- 1:b=b;@0=sum(a),@1=min(b) 2:b=b,x=Plus(@0,@1) 3:-1,2 4:-
["scan",0,null] ["group_by",0,[["b",1]],[["s",5]],false,[-1,0]] -> 0 in-memory-source 0 -/1 group-by 1 0.0/2 slice 1 1.0/3 in-memory-sink 2 2.0/ | 0:- 1:b=b;s=sum(a) 2:0,0 3:-
["scan",0,null] ["select",0,[["a",0],["b",8]]] ["group_by",1,[["b",1]],[["s",5],["x",26]],false,null] -> 0 in-memory-source 0 -/1 reduce 1 0.0/2 zip 1 0.0,1.0/3 select 1 2.0/4 group-by 2 3.0/5 select 2 4.0/6 in-memory-sink 3 5.0/ | 0:- 1:@0=sum(a) 2:- 3:a=a,b=Plus(b,@0) 4:b=b;s=sum(a),@1=sum(a) 5:b=b,s=s,x=Plus(@1,1) 6:-
"#;

const GROUPS_OF_THE_WHOLE_INPUT: &str = r#"
["scan",0,null] ["group_by",0,[["b",1]],[["s",5]],true,null] -> 0 in-memory-source 0 -/1 in-memory-map 1 0.0/2 in-memory-sink 2 1.0/ | 0:- 1:b=b;s=sum(a);ordered 2:-
["scan",0,null] ["group_by",0,[["b",1]],[["x",17]],true,[1,2]] -> 0 in-memory-source 0 -/1 in-memory-map 1 0.0/2 in-memory-sink 2 1.0/ | 0:- 1:b=b;x=Plus(sum(a),min(b));ordered;cut(1,2) 2:-
["scan",0,null] ["group_by",0,[["k",3]],[["x",4]],false,null] -> 0 in-memory-source 0 -/1 in-memory-map 1 0.0/2 in-memory-sink 2 1.0/ | 0:- 1:k=1;x=2 2:-
["scan",0,null] ["group_by",0,[["k",3]],[],false,null] -> 0 in-memory-source 0 -/1 in-memory-map 1 0.0/2 in-memory-sink 2 1.0/ | 0:- 1:k=1; 2:-
["scan",0,null] ["group_by",0,[["b",1]],[["u",15]],false,[-1,2]] -> 0 in-memory-source 0 -/1 in-memory-map 1 0.0/2 in-memory-sink 2 1.0/ | 0:- 1:b=b;u=n_unique(a);cut(-1,2) 2:-
["scan",0,null] ["group_by",0,[["b",1]],[["s",5],["c",16]],false,null] -> 0 in-memory-source 0 -/1 in-memory-map 1 0.0/2 in-memory-sink 2 1.0/ | 0:- 1:b=b;s=sum(a),c=count(b) 2:-
["scan",0,null] ["group_by",0,[["k",8]],[["s",25]],false,[-1,0]] -> 0 in-memory-source 0 -/1 in-memory-map 1 0.0/2 in-memory-sink 2 1.0/ | 0:- 1:k=Plus(b,sum(a));s=sum(Reverse(b));cut(-1,0) 2:-
["scan",0,null] ["group_by",0,[["b",1]],[["m",30]],false,null] -> 0 in-memory-source 0 -/1 in-memory-map 1 0.0/2 in-memory-sink 2 1.0/ | 0:- 1:b=b;m=min(sum(a)) 2:-
["scan",0,null] ["group_by",0,[["b",1]],[["r",31]],false,null] -> 0 in-memory-source 0 -/1 in-memory-map 1 0.0/2 in-memory-sink 2 1.0/ | 0:- 1:b=b;r=Reverse(sum(a)) 2:-
["scan",0,null] ["group_by",0,[["b",1]],[["s",38]],false,null] -> 0 in-memory-source 0 -/1 in-memory-map 1 0.0/2 in-memory-sink 2 1.0/ | 0:- 1:b=b;s=sum(filter(a,Gt(a,1))) 2:-
["scan",0,null] ["group_by",0,[["b",1]],[["z",40]],false,null] -> 0 in-memory-source 0 -/1 in-memory-map 1 0.0/2 in-memory-sink 2 1.0/ | 0:- 1:b=b;z=IsNull(n_unique(a)) 2:-
"#;

const DISTINCTS: &str = r#"
["scan",0,null] ["distinct",0,null,false,"first",null] -> 0 in-memory-source 0 -/1 group-by 1 0.0/2 in-memory-sink 2 1.0/ | 0:- 1:a=a,b=b; 2:-
["scan",0,null] ["distinct",0,["a"],false,"first",null] -> 0 in-memory-source 0 -/1 group-by 1 0.0/2 in-memory-sink 2 1.0/ | 0:- 1:a=a;b=first(b) 2:-
["scan",0,null] ["distinct",0,["b"],false,"first",null] -> 0 in-memory-source 0 -/1 group-by 1 0.0/2 simple-projection 1 1.0/3 in-memory-sink 2 2.0/ | 0:- 1:b=b;a=first(a) 2:a,b 3:-
["scan",0,null] ["distinct",0,["b","a"],false,"any",null] -> 0 in-memory-source 0 -/1 group-by 1 0.0/2 simple-projection 1 1.0/3 in-memory-sink 2 2.0/ | 0:- 1:b=b,a=a; 2:a,b 3:-
["scan",0,null] ["distinct",0,["a"],false,"any",[-1,2]] -> 0 in-memory-source 0 -/1 group-by 1 0.0/2 negative-slice 1 1.0/3 in-memory-sink 2 2.0/ | 0:- 1:a=a;b=first(b) 2:-1,2 3:-
["scan",0,null] ["distinct",0,["a"],false,"last",null] -> 0 in-memory-source 0 -/1 group-by 1 0.0/2 in-memory-sink 2 1.0/ | 0:- 1:a=a;b=last(b) 2:-
["scan",0,null] ["distinct",0,["b"],false,"last",[1,2]] -> 0 in-memory-source 0 -/1 group-by 1 0.0/2 simple-projection 1 1.0/3 slice 1 2.0/4 in-memory-sink 2 3.0/ | 0:- 1:b=b;a=last(a) 2:a,b 3:1,2 4:-
["scan",0,null] ["distinct",0,["a"],false,"none",null] -> 0 in-memory-source 0 -/1 group-by 1 0.0/2 filter 1 1.0/3 simple-projection 1 2.0/4 in-memory-sink 2 3.0/ | 0:- 1:a=a;b=first(b),@0=len 2:Eq(@0,1u) 3:a,b 4:-
["scan",0,null] ["distinct",0,null,false,"none",[-1,0]] -> 0 in-memory-source 0 -/1 group-by 1 0.0/2 filter 1 1.0/3 simple-projection 1 2.0/4 slice 1 3.0/5 in-memory-sink 2 4.0/ | 0:- 1:a=a,b=b;@0=len 2:Eq(@0,1u) 3:a,b 4:0,0 5:-
["scan",0,null] ["distinct",0,["a"],true,"first",null] -> 0 in-memory-source 0 -/1 in-memory-map 1 0.0/2 in-memory-sink 2 1.0/ | 0:- 1:a=a;b=first(b);ordered 2:-
["scan",0,null] ["distinct",0,["b"],true,"first",[1,2]] -> 0 in-memory-source 0 -/1 in-memory-map 1 0.0/2 simple-projection 1 1.0/3 slice 1 2.0/4 in-memory-sink 2 3.0/ | 0:- 1:b=b;a=first(a);ordered 2:a,b 3:1,2 4:-
["scan",0,null] ["distinct",0,null,true,"any",null] -> 0 in-memory-source 0 -/1 in-memory-map 1 0.0/2 in-memory-sink 2 1.0/ | 0:- 1:a=a,b=b;;ordered 2:-
["scan",0,null] ["distinct",0,["a"],true,"none",[-2,1]] -> 0 in-memory-source 0 -/1 in-memory-map 1 0.0/2 filter 1 1.0/3 simple-projection 1 2.0/4 negative-slice 1 3.0/5 in-memory-sink 2 4.0/ | 0:- 1:a=a;b=first(b),@0=len;ordered 2:Eq(@0,1u) 3:a,b 4:-2,1 5:-
["scan",0,null] ["distinct",0,["a"],true,"last",null] -> 0 in-memory-source 0 -/1 in-memory-map 1 0.0/2 in-memory-sink 2 1.0/ | 0:- 1:a;Last;ordered 2:-
["scan",0,null] ["distinct",0,null,true,"last",[1,2]] -> 0 in-memory-source 0 -/1 in-memory-map 1 0.0/2 in-memory-sink 2 1.0/ | 0:- 1:all;Last;ordered;cut(1,2) 2:-
["scan",0,null] ["distinct",0,["b","a"],true,"last",[-1,0]] -> 0 in-memory-source 0 -/1 in-memory-map 1 0.0/2 in-memory-sink 2 1.0/ | 0:- 1:b,a;Last;ordered;cut(-1,0) 2:-
["scan",0,null] ["select",0,[["@0",0],["b",8]]] ["distinct",1,null,false,"none",null] -> 0 in-memory-source 0 -/1 reduce 1 0.0/2 zip 1 0.0,1.0/3 select 1 2.0/4 group-by 2 3.0/5 filter 2 4.0/6 simple-projection 2 5.0/7 in-memory-sink 3 6.0/ | 0:- 1:@1=sum(a) 2:- 3:@0=a,b=Plus(b,@1) 4:@0=@0,b=b;@2=len 5:Eq(@2,1u) 6:@0,b 7:-
"#;

#[test]
fn group_bys_stream_like_this(rt: HostRuntime) -> Result<(), Fail> {
    let unlike = first_unlike(rt.alloc(), GROUPS_THAT_STREAM)?;
    assert_eq!(rt; unlike.as_str(), "");
    Ok(())
}

#[test]
fn group_bys_take_their_whole_input_like_this(rt: HostRuntime) -> Result<(), Fail> {
    let unlike = first_unlike(rt.alloc(), GROUPS_OF_THE_WHOLE_INPUT)?;
    assert_eq!(rt; unlike.as_str(), "");
    Ok(())
}

#[test]
fn distincts_become_these_nodes(rt: HostRuntime) -> Result<(), Fail> {
    let unlike = first_unlike(rt.alloc(), DISTINCTS)?;
    assert_eq!(rt; unlike.as_str(), "");
    Ok(())
}
