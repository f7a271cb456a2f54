//! Bodies behind the shield.
use crate::rows::{Spelled, check};
use adr_value::shield_laws;
use std::test::Fail;

/// What bodies are behind the shield, or the refusal, and the bodies.
const BODIES: &str = r#"["\u00000.17"] = [0.17]
{"a":"1"} = {"a":"1"}
{"a\"1":"\u0000-1"} = {"a\"1":-1}
["\\u0000"] = ["\\u0000"]
+"\u00001" = +1
"abc = "abc
"abc\ = "abc\
 = 
"\u00007" = 7
["\u000012","a","\u000034",true ,"b", "\u00005"] = [12,"a",34,true ,"b", 5]
["\u0000-1234567890123456789.1"] = [-1234567890123456789.1]
["\u0000123456789012345678.123456789012345678"] = [123456789012345678.123456789012345678]
["\u00001","\u00002e1"] = [1,2e1]
{"a":"\u00001" , "b":true} = {"a":1 , "b":true}
BadNumber = {1 :2}
BadNumber = ["\u0000"]
BadNumber = {"a":1,1.5:2}
BadNumber = {"a":1,1.5  :2}
BadNumber = {"programName":"P","n":01}
BadNumber = [1e99]
BadNumber = [1.]
BadNumber = [1234567890123456789.123456789012345678]
BadNumber = [1234567890123456789012345678901234567]
BadNumber = -
BadNumber = ["\\\u0000"]
BadNumber = "a\u0000"#;

#[test]
fn bodies_are_shielded(rt: HostRuntime) -> Result<(), Fail> {
    shield_laws();
    check(rt.alloc(), Spelled::Body, BODIES)
}
