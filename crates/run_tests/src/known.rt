//! Programs with known results, elements and cycles, made and compared by the program.
use crate::desk::Desk;
use std::alloc::Global;
use std::test::Fail;

/// The lines of a comparison of this source with its own module and report.
fn lines_of(alloc: Global, source: &[u8], run: &[u8]) -> Result<Vec<u8>, Fail> {
    let files = [("s.c", source), ("s.run", run)];
    let desk = Desk::with(&files);
    let left = desk.run(alloc, "synth s.c s.v s.rep --top f")?;
    if left.status != 0 {
        return Err("a module and a report".into());
    }
    let left = left.then(
        alloc,
        "cosim s.c s.v s.rep s.run --top f --points 100000 --cycles 100000",
    )?;
    Ok(Vec::from_slice(alloc, left.out.written())?)
}

#[test]
fn scalars(rt: HostRuntime) -> Result<(), Fail> {
    let rows: [(&[u8], &[u8], &[u8]); 5] = [
        (
            b"int f(void){return 7;}",
            b"",
            b"c ret 7\nformula 2\nclock 2\nverilog 2\nagree\n",
        ),
        (
            b"int f(int a,int b){return a*b+a;}",
            b"a = 6\nb = 7\n",
            b"c ret 48\nformula 5\nclock 5\nverilog 5\nagree\n",
        ),
        (
            b"int f(int a,int b){return a/b;}",
            b"a = -7\nb = 2\n",
            b"c ret -3\nformula 36\nclock 36\nverilog 36\nagree\n",
        ),
        (
            b"int f(int a,unsigned b){return a<b;}",
            b"a = -1\nb = 1\n",
            b"c ret 0\nformula 4\nclock 4\nverilog 4\nagree\n",
        ),
        (
            b"unsigned char f(unsigned char a){a += 200; return a;}",
            b"a = 100\n",
            b"c ret 44\nformula 5\nclock 5\nverilog 5\nagree\n",
        ),
    ];
    for (source, run, lines) in rows {
        assert_eq!(rt; lines_of(rt.alloc(), source, run)?.as_slice(), lines);
    }
    Ok(())
}

#[test]
fn control(rt: HostRuntime) -> Result<(), Fail> {
    let rows: [(&[u8], &[u8], &[u8]); 4] = [
        (
            b"int f(int c,int a){ if(c){ while(a>10) a=a-3; } return a; }",
            b"c = 1\na = 50\n",
            b"c ret 8\nformula 23\nclock 23\nverilog 23\nagree\n",
        ),
        (
            b"int f(int a[4],int x){int i; for(i=0;i<4;i++){ if(a[i]==x) break; } return i;}",
            b"a = 5 6 7 8\nx = 7\n",
            b"c ret 2\narray a 5 6 7 8\nformula 24\nclock 24\nverilog 24\nagree\n",
        ),
        (
            b"int g(int x){return x*x;} int f(int a,int b){return g(a)+g(b);}",
            b"a = 3\nb = 4\n",
            b"c ret 25\nformula 6\nclock 6\nverilog 6\nagree\n",
        ),
        (
            b"int f(int n){int s=0; while(n--) s=s+n; return s;}",
            b"n = 4\n",
            b"c ret 6\nformula 17\nclock 17\nverilog 17\nagree\n",
        ),
    ];
    for (source, run, lines) in rows {
        assert_eq!(rt; lines_of(rt.alloc(), source, run)?.as_slice(), lines);
    }
    Ok(())
}

#[test]
fn arrays(rt: HostRuntime) -> Result<(), Fail> {
    let rows: [(&[u8], &[u8], &[u8]); 3] = [
        (
            b"const unsigned char t[4]={1,2}; int f(int i){return t[i];}",
            b"i = 1\n",
            b"c ret 2\nformula 5\nclock 5\nverilog 5\nagree\n",
        ),
        (
            b"int t[64]; int f(void){return t[3];}",
            b"",
            b"c ret 0\nformula 4\nclock 4\nverilog 4\nagree\n",
        ),
        (
            b"void f(int a[8],int k){for(int i=0;i<7;i++) a[i+1]=a[i]+k;}",
            b"a = 0 0 0 0 0 0 0 0\nk = 3\n",
            b"c ret -\narray a 0 3 6 9 12 15 18 21\nformula 34\nclock 34\nverilog 34\nagree\n",
        ),
    ];
    for (source, run, lines) in rows {
        assert_eq!(rt; lines_of(rt.alloc(), source, run)?.as_slice(), lines);
    }
    Ok(())
}
