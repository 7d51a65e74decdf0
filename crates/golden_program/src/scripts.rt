//! Scripts of two callers, each of which makes two calls.

/// Each has a retry.
pub const TWO_CALLERS: &str = r#"{"bucket":[500,5,5,10,0,0],"start":0,"words":[],"callers":[
{"client":{"service":"s","operation":"o","bucket":0,"retry":["Standard",3,1000000000,
20000000000,"ReconnectOnTransientError",true,null],"timeouts":[null,null,null,null],
"url":"http://localhost:1234","prefix":null,"sleep":true,"time":true,"poisoning":false,
"enforce":false,"v2":true,"stall":null,"classifiers":[["status",[500,502,503,504]]],
"auth":"none"},
"invocations":[{"input":[1,"hi"],"fuel":1000,"stop":"None",
"responses":[[0,503,[],[],false,null],[0,418,[],[],false,null]]}]},
{"client":{"service":"s","operation":"o","bucket":0,"retry":["Standard",3,1000000000,
20000000000,"ReconnectOnTransientError",true,null],"timeouts":[null,null,null,null],
"url":"http://localhost:1234","prefix":null,"sleep":true,"time":true,"poisoning":false,
"enforce":false,"v2":true,"stall":null,"classifiers":[["status",[500,502,503,504]]],
"auth":"none"},
"invocations":[{"input":[1,"hi"],"fuel":1000,"stop":"None",
"responses":[[0,503,[],[],false,null],[0,418,[],[],false,null]]}]}]}"#;

/// The first has a retry, and the other a success and a failure of one attempt each. The failure
/// may run beside the retry, so it must change nothing in the bucket.
pub const RETRY_AND_TWO_RUNS: &str = r#"{"bucket":[500,5,5,10,0,0],"start":0,"words":[],"callers":[
{"client":{"service":"s","operation":"o","bucket":0,"retry":["Standard",3,1000000000,
20000000000,"ReconnectOnTransientError",true,null],"timeouts":[null,null,null,null],
"url":"http://localhost:1234","prefix":null,"sleep":true,"time":true,"poisoning":false,
"enforce":false,"v2":true,"stall":null,"classifiers":[["status",[500,502,503,504]]],
"auth":"none"},
"invocations":[{"input":[1,"hi"],"fuel":1000,"stop":"None",
"responses":[[0,503,[],[],false,null],[0,418,[],[],false,null]]}]},
{"client":{"service":"s","operation":"o","bucket":0,"retry":["Standard",3,1000000000,
20000000000,"ReconnectOnTransientError",true,null],"timeouts":[null,null,null,null],
"url":"http://localhost:1234","prefix":null,"sleep":true,"time":true,"poisoning":false,
"enforce":false,"v2":true,"stall":null,"classifiers":[["status",[500,502,503,504]]],
"auth":"none"},
"invocations":[{"input":[1,"hi"],"fuel":1000,"stop":"None",
"responses":[[0,418,[],[],false,null]]},
{"input":[1,"hi"],"fuel":1000,"stop":"None",
"responses":[[0,404,[],[],false,null]]}]}]}"#;
