// Pairs of sheets, and what is the matter with them.

pub struct Case {
    pub name: &'static str,
    pub ranges: &'static [u8],
    pub lists: &'static [u8],
}

pub(crate) const CASES: [Case; 44] = [
    Case {
        name: "two sheets in order",
        ranges: b"class,pulse,P,1,4\nrange,zones,11,12,3,12\n",
        lists: b"list,radio,2,5,6,9\n",
    },
    Case {
        name: "no sheets",
        ranges: b"",
        lists: b"",
    },
    Case {
        name: "a last line without its newline",
        ranges: b"range,a,4,5,1,4\nrange,b,4",
        lists: b"",
    },
    Case {
        name: "only an unended line",
        ranges: b"range,a,4,5,1,4",
        lists: b"",
    },
    Case {
        name: "an unended list sheet behind a refused range sheet",
        ranges: b"run,a,4,5,1,4\n",
        lists: b"list",
    },
    Case {
        name: "an unknown word",
        ranges: b"range,a,4,5,1,4\nsprint,b,4,5,1,4\n",
        lists: b"",
    },
    Case {
        name: "a word of the other sheet",
        ranges: b"list,a,1,4,5\n",
        lists: b"",
    },
    Case {
        name: "an empty line",
        ranges: b"range,a,4,5,1,4\n\n",
        lists: b"",
    },
    Case {
        name: "a word in capitals",
        ranges: b"",
        lists: b"List,a,1,4,5\n",
    },
    Case {
        name: "a range of five fields",
        ranges: b"range,a,4,5,1\n",
        lists: b"",
    },
    Case {
        name: "a class of six fields",
        ranges: b"class,a,P,1,4,9\n",
        lists: b"",
    },
    Case {
        name: "a list of no periods",
        ranges: b"",
        lists: b"list,a,1,4\n",
    },
    Case {
        name: "a list of nine periods",
        ranges: b"",
        lists: b"list,a,1,4,1,2,3,4,5,6,7,8,9\n",
    },
    Case {
        name: "a comma at the end",
        ranges: b"range,a,4,5,1,4,\n",
        lists: b"",
    },
    Case {
        name: "no name",
        ranges: b"range,,4,5,1,4\n",
        lists: b"",
    },
    Case {
        name: "a name in capitals",
        ranges: b"range,Pulse,4,5,1,4\n",
        lists: b"",
    },
    Case {
        name: "a name with a blank",
        ranges: b"range,heart rate,4,5,1,4\n",
        lists: b"",
    },
    Case {
        name: "a name of 17 bytes",
        ranges: b"range,abcdefghijklmnopq,4,5,1,4\n",
        lists: b"",
    },
    Case {
        name: "a name of 16 bytes, used in both sheets",
        ranges: b"range,abcdefghijklmnop,4,4,1,4\n",
        lists: b"list,abcdefghijklmnop,1,4,4\n",
    },
    Case {
        name: "a name used twice",
        ranges: b"range,a,4,5,1,4\nclass,b,P,1,4\nrange,a,8,9,1,4\n",
        lists: b"",
    },
    Case {
        name: "a leading zero",
        ranges: b"range,a,04,5,1,4\n",
        lists: b"",
    },
    Case {
        name: "a zero",
        ranges: b"range,a,4,5,0,4\n",
        lists: b"",
    },
    Case {
        name: "seven digits",
        ranges: b"range,a,4,5,1,1000004\n",
        lists: b"",
    },
    Case {
        name: "200,001",
        ranges: b"range,a,4,200001,1,4\n",
        lists: b"",
    },
    Case {
        name: "200,000",
        ranges: b"range,a,200000,200000,200000,200000\n",
        lists: b"",
    },
    Case {
        name: "a sign",
        ranges: b"range,a,+4,5,1,4\n",
        lists: b"",
    },
    Case {
        name: "an empty number",
        ranges: b"range,a,4,5,,4\n",
        lists: b"",
    },
    Case {
        name: "a carriage return",
        ranges: b"range,a,4,5,1,4\r\n",
        lists: b"",
    },
    Case {
        name: "an unknown class",
        ranges: b"class,a,X,1,4\n",
        lists: b"",
    },
    Case {
        name: "a class of two letters",
        ranges: b"class,a,PB,1,4\n",
        lists: b"",
    },
    Case {
        name: "a small letter",
        ranges: b"class,a,p,1,4\n",
        lists: b"",
    },
    Case {
        name: "a bad period behind two that do not rise",
        ranges: b"",
        lists: b"list,a,1,4,5,5,x\n",
    },
    Case {
        name: "low above high",
        ranges: b"range,a,5,4,1,4\n",
        lists: b"",
    },
    Case {
        name: "low above high, and a bad deadline",
        ranges: b"range,a,5,4,1,0\n",
        lists: b"",
    },
    Case {
        name: "a list that falls",
        ranges: b"",
        lists: b"list,a,1,4,5,9,8,10\n",
    },
    Case {
        name: "a list that stands still",
        ranges: b"",
        lists: b"list,a,1,4,5,5\n",
    },
    Case {
        name: "a faulty list sheet behind a range sheet in order",
        ranges: b"range,a,4,5,1,4\n",
        lists: b"list,a,1,4,5\nlist,b,1,4,6,x\n",
    },
    Case {
        name: "sixteen tasks and one more in the sheet",
        ranges: b"range,a,16,16,1,16\nrange,b,16,16,1,16\nrange,c,16,16,1,16\nrange,d,16,16,1,16\nrange,e,16,16,1,16\nrange,f,16,16,1,16\nrange,g,16,16,1,16\nrange,h,16,16,1,16\nrange,i,16,16,1,16\nrange,j,16,16,1,16\nrange,k,16,16,1,16\nrange,l,16,16,1,16\nrange,m,16,16,1,16\nrange,n,16,16,1,16\nrange,o,16,16,1,16\nrange,p,16,16,1,16\nrange,q,16,16,1,16\n",
        lists: b"",
    },
    Case {
        name: "a seventeenth task that is faulty itself",
        ranges: b"range,a,16,16,1,16\nrange,b,16,16,1,16\nrange,c,16,16,1,16\nrange,d,16,16,1,16\nrange,e,16,16,1,16\nrange,f,16,16,1,16\nrange,g,16,16,1,16\nrange,h,16,16,1,16\nrange,i,16,16,1,16\nrange,j,16,16,1,16\nrange,k,16,16,1,16\nrange,l,16,16,1,16\nrange,m,16,16,1,16\nrange,n,16,16,1,16\nrange,o,16,16,1,16\nrange,p,16,16,1,16\nrange,q,16,15,1,16\n",
        lists: b"",
    },
    Case {
        name: "sixteen tasks, and one in the list sheet",
        ranges: b"range,a,16,16,1,16\nrange,b,16,16,1,16\nrange,c,16,16,1,16\nrange,d,16,16,1,16\nrange,e,16,16,1,16\nrange,f,16,16,1,16\nrange,g,16,16,1,16\nrange,h,16,16,1,16\nrange,i,16,16,1,16\nrange,j,16,16,1,16\nrange,k,16,16,1,16\nrange,l,16,16,1,16\nrange,m,16,16,1,16\nrange,n,16,16,1,16\nrange,o,16,16,1,16\nrange,p,16,16,1,16\n",
        lists: b"list,q,1,16,16\n",
    },
    Case {
        name: "sixteen tasks",
        ranges: b"range,a,16,16,1,16\nrange,b,16,16,1,16\nrange,c,16,16,1,16\nrange,d,16,16,1,16\nrange,e,16,16,1,16\nrange,f,16,16,1,16\nrange,g,16,16,1,16\nrange,h,16,16,1,16\nrange,i,16,16,1,16\nrange,j,16,16,1,16\nrange,k,16,16,1,16\nrange,l,16,16,1,16\nrange,m,16,16,1,16\nrange,n,16,16,1,16\nrange,o,16,16,1,16\nrange,p,16,16,1,16\n",
        lists: b"",
    },
    Case {
        name: "no number up to the ceiling",
        ranges: b"range,a,199999,199999,1,4\nrange,b,199998,199998,1,4\n",
        lists: b"",
    },
    Case {
        name: "too many jobs",
        ranges: b"range,a,1,1,1,1\nrange,b,1024,1024,1,1024\n",
        lists: b"",
    },
    Case {
        name: "every size fails",
        ranges: b"range,a,2,2,1,2\nrange,b,3,3,2,3\n",
        lists: b"",
    },
];
