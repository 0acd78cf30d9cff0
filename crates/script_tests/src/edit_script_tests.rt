use edit_script::{read, write};
use std::test::Fail;

const WHOLE: &str =
    r#"{"history":{"end":1,"items":[{"blend":{"mask":{"a":4,"b":5,"cx":1,"cy":2,"feather":6,"shape":"ellipse","ux":-1,"uy":0},"mode":"screen","opacity":65536},"enabled":false,"instance":1,"module":"tonecurve","params":{"blue":[[0,1],[9,8]],"green":[[0,0],[9,8]],"red":[[5,5],[6,7]]},"version":2}],"order":[["rawprepare",0],["temperature",0],["demosaic",0],["tonecurve",1],["exposure",0]]},"settings":{"cfa":"GBRG","depth":16,"mip_slots":1,"preview_side":64,"second":{"cx":65536,"cy":0,"factor":2,"h":1,"w":2},"stage_entries":1,"stage_pixels":0,"undo_depth":64,"view":{"cx":0,"cy":65536,"factor":64,"h":48,"w":16384},"workers":4},"steps":[{"blend":null,"do":"set","enabled":true,"instance":0,"module":"exposure","params":{"black":-65535,"gain":65536,"stops":-4},"version":2},{"do":"select","end":1},{"do":"add","instance":255,"module":"crop","place":3},{"do":"move","instance":255,"module":"crop","place":5},{"do":"delete","instance":255,"module":"crop"},{"cx":0,"cy":0,"do":"view","factor":1,"h":1,"w":1},{"cx":1,"cy":2,"do":"second","factor":64,"h":3,"w":4},{"do":"undo"},{"do":"redo"},{"box":[16384,1],"depth":16,"do":"export"},{"box":[1,720],"do":"thumbnail"},{"do":"compress"},{"do":"settle"}]}"#;

const LEAST: &str =
    r#"{"steps":[{"do":"set","module":"exposure","params":{"gain":1,"black":0}},{"do":"export"}]}"#;

const LEAST_WITH_DEFAULTS: &str =
    r#"{"history":{"end":0,"items":[],"order":[["rawprepare",0],["temperature",0],["demosaic",0],["orientation",0],["crop",0],["exposure",0],["channelmixer",0],["tonecurve",0]]},"settings":{"cfa":null,"depth":8,"mip_slots":4,"preview_side":720,"second":null,"stage_entries":16,"stage_pixels":8388608,"undo_depth":32,"view":{"cx":32768,"cy":32768,"factor":1,"h":480,"w":720},"workers":2},"steps":[{"blend":null,"do":"set","enabled":true,"instance":0,"module":"exposure","params":{"black":0,"gain":1,"stops":0},"version":2},{"box":null,"depth":8,"do":"export"}]}"#;

/// Eight edits, of version 1 where a module has two.
const EIGHT: &str =
    r#"{"steps":[{"do":"set","module":"exposure","params":{"black":0,"gain":8192}},{"do":"set","module":"channelmixer","params":{"rows":[[4096,0,0],[0,4096,0],[0,0,4096]]}},{"do":"set","module":"tonecurve","params":{"nodes":[[0,0],[1048575,1048575]]}},{"do":"select","end":1},{"do":"set","module":"exposure","params":{"black":0,"gain":2048}},{"do":"set","module":"temperature","params":{"mul":[4096,4096,4096]}},{"do":"set","module":"exposure","params":{"black":0,"gain":4096}},{"do":"compress"}]}"#;

const EIGHT_WRITTEN: &str =
    r#"{"history":{"end":0,"items":[],"order":[["rawprepare",0],["temperature",0],["demosaic",0],["orientation",0],["crop",0],["exposure",0],["channelmixer",0],["tonecurve",0]]},"settings":{"cfa":null,"depth":8,"mip_slots":4,"preview_side":720,"second":null,"stage_entries":16,"stage_pixels":8388608,"undo_depth":32,"view":{"cx":32768,"cy":32768,"factor":1,"h":480,"w":720},"workers":2},"steps":[{"blend":null,"do":"set","enabled":true,"instance":0,"module":"exposure","params":{"black":0,"gain":8192,"stops":0},"version":2},{"blend":null,"do":"set","enabled":true,"instance":0,"module":"channelmixer","params":{"rows":[[4096,0,0],[0,4096,0],[0,0,4096]]},"version":1},{"blend":null,"do":"set","enabled":true,"instance":0,"module":"tonecurve","params":{"blue":[[0,0],[1048575,1048575]],"green":[[0,0],[1048575,1048575]],"red":[[0,0],[1048575,1048575]]},"version":2},{"do":"select","end":1},{"blend":null,"do":"set","enabled":true,"instance":0,"module":"exposure","params":{"black":0,"gain":2048,"stops":0},"version":2},{"blend":null,"do":"set","enabled":true,"instance":0,"module":"temperature","params":{"mul":[4096,4096,4096]},"version":1},{"blend":null,"do":"set","enabled":true,"instance":0,"module":"exposure","params":{"black":0,"gain":4096,"stops":0},"version":2},{"do":"compress"}]}"#;

#[test]
fn a_script_is_written_with_every_key(rt: HostRuntime) -> Result<(), Fail> {
    let alloc = rt.alloc();
    let whole = write(alloc, &read(alloc, WHOLE.as_bytes())?)?;
    assert!(rt; whole.as_slice() == WHOLE.as_bytes());
    let least = write(alloc, &read(alloc, LEAST.as_bytes())?)?;
    assert!(rt; least.as_slice() == LEAST_WITH_DEFAULTS.as_bytes());
    Ok(())
}

// What is written for eight edits has the newest versions, and is read again as the same edits.
#[test]
fn eight_edits_are_written_with_their_versions_and_read_again(rt: HostRuntime) -> Result<(), Fail> {
    let alloc = rt.alloc();
    let written = write(alloc, &read(alloc, EIGHT.as_bytes())?)?;
    assert!(rt; written.as_slice() == EIGHT_WRITTEN.as_bytes());
    let again = write(alloc, &read(alloc, &written)?)?;
    assert!(rt; again.as_slice() == EIGHT_WRITTEN.as_bytes());
    Ok(())
}
