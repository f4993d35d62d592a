// Edge cases of box kinds and box headers, a line each: the call = its result.
#![tactic(auto)]

mod headers;
mod kinds;

fn main(rt: HostRuntime) {
    kinds::all(&rt);
    headers::all(&rt);
}
